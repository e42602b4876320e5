// A list of places that rise.
ghost use Rattle.std.specs.Prelude.{◌≡◌, ℕ, ◌≤◌, true, [], ◌||◌, vec_len, vec_capacity, OnErr, OnOk, ◌==◌};
ghost use Rattle.orders.specs.Transaction.{is_in};
ghost use Rattle.orders.specs.Valid.{rising};

use std::alloc::{AllocError, Global};

#[derive(Drop)]
pub struct Places {
    items: Vec<u32>,
    ghost rises: { rising 0 items.items ≡ true },
}

impl Places {
    pub fn new(heap: Global) -> Places
        ensures { result.items.items ≡ [] }
    {
        Places {
            items: Vec::new(heap),
        }
    }

    // Puts a place where it belongs, unless it is there already.
    pub fn insert(&mut self, place: u32) -> Result<(), AllocError>
        ensures has { OnOk result (((x : ℕ) → is_in x self.new.items.items ≡ (x == place || is_in x self.old.items.items))) }
        ensures wanting { OnErr result (vec_capacity self.old.items ≤ vec_len self.old.items) }
    {
        match self.items.binary_search(&place) {
            Ok(_) => Ok(()),
            Err(at) => Ok(self.items.insert(at, place)?),
        }
    }

    // The list itself.
    pub fn into_vec(self) -> Vec<u32>
        ensures items { result ≡ self.items }
        ensures rises { rising 0 result.items ≡ true }
    {
        self.items
    }
}
