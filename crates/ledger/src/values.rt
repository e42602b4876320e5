// The values of a house's own keys.
ghost use Rattle.std.specs.Prelude.{◌≡◌, ◌/◌, IfOk, replicate, slice_set, vec_len};
ghost use Rattle.ledger.specs.Own.{slot_in};

use std::alloc::{AllocError, Global};
use turns::{KEYS, slot};

#[derive(Drop)]
pub struct Values {
    // by the number of a key within the house
    own: Vec<u32>,
    ghost sized: { vec_len own ≡ 4096 },
}

impl Values {
    // Every value 0.
    pub fn new(heap: Global) -> Result<Values, AllocError>
        ensures { IfOk result (λ v. v.own.items ≡ replicate 4096 0) }
    {
        let own = vec![in heap; 0; KEYS]?;
        Ok(Values { own })
    }

    // What stands in a key, which is taken for one of the house.
    pub fn get(&self, key: u16) -> u32
        ensures { result ≡ slot_in self.now.own.items key }
    {
        self.own[slot(key)]
    }

    pub fn set(&mut self, key: u16, value: u32)
        ensures { self.new.own.items ≡ slice_set self.old.own.items (key / 16) value }
    {
        self.own[slot(key)] = value;
    }
}
