// Orders done one at a time.
ghost use Rattle.std.specs.Prelude.{◌≡◌, ℕ, true, false, map, IfOk};
ghost use Rattle.orders.specs.Contents.{contents_of, keys_of};
ghost use Rattle.orders.specs.Meaning.{meaning};
ghost use Rattle.orders.specs.Transaction.{after, lookup, is_in};
ghost use Rattle.line.specs.Serial.{values_in};

use super::Store;
use interpreter::run;
use orders::{KeySet, Order, Outcome};
use std::alloc::{AllocError, Global};

impl Store {
    // Every key at 0.
    pub fn new(heap: Global) -> Result<Store, AllocError>
        ensures { IfOk result (λ s. ((k : ℕ) → values_in s k ≡ 0)) }
    {
        let values = vec![in heap; 0; 65536]?;
        Ok(Store { values })
    }

    pub fn get(&self, key: u16) -> u32
        ensures { result ≡ values_in self.now key }
    {
        self.values[usize::from(key)]
    }

    // Does an order: it reads what stands there, and writes.
    pub fn apply(&mut self, order: &Order)
        ensures leaves { values_in self.new ≡ after (meaning (contents_of order.now)) (values_in self.old) }
        ensures elsewhere { (k : ℕ) → is_in k (contents_of order.now).writes ≡ false → values_in self.new k ≡ values_in self.old k }
    {
        // most of the work of an order that writes no key would be to make room for it
        if order.write_set().as_slice().is_empty() {
            return;
        }
        let mut room = [0; 16];
        match run(order, self.read(order.read_set(), &mut room)) {
            Outcome::Writes(written) => self.write(order.write_set(), &written),
            Outcome::Nothing => {}
        }
    }

    // The values of some keys, in the room that is lent.
    fn read<'a>(&self, keys: &KeySet, room: &'a mut [u32; 16]) -> &'a [u32]
        ensures { result.now ≡ map (values_in self.now) (keys_of keys.now) }
    {
        let keys = keys.as_slice();
        for (i, key) in keys.iter().enumerate() {
            room[i] = self.get(*key);
        }
        &room[..keys.len()]
    }

    // Overwrites some keys, the one place where a value changes.
    fn write(&mut self, keys: &KeySet, values: &[u32; 16])
        ensures { (k : ℕ) → values_in self.new k ≡ lookup (keys_of keys.now) values.now k (values_in self.old k) }
    {
        for (key, value) in keys.as_slice().iter().zip(values) {
            self.values[usize::from(*key)] = *value;
        }
    }
}
