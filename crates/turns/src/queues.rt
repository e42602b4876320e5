// The queues of a house.
ghost use Rattle.std.specs.Prelude.{◌≡◌, ◌<◌, map, length, IfOk, vec_len, OnErr, OnOk, slice_index_or};
ghost use Rattle.turns.specs.Entries.{entries_in};
ghost use Rattle.turns.specs.Marks.{slot};
ghost use Rattle.turns.specs.Queues.{enter_all, leave_all};
ghost use Rattle.turns.specs.Rooms.{Roomy, Cramped, Empty};

use crate::entry::{Entry, Mark};
use crate::keys::{KEYS, slot};
use crate::queue::Queue;
use std::alloc::{AllocError, Global};

// A queue for each key of a house, by its number there.
#[derive(Drop)]
pub struct Queues {
    by_key: Vec<Queue>,
    ghost sized: { vec_len by_key ≡ 4096 },
}

impl Queues {
    pub fn new(heap: Global) -> Result<Queues, AllocError>
        ensures { IfOk result (λ q. Empty q.by_key.items) }
    {
        let mut by_key = Vec::new(heap);
        by_key.resize_with(KEYS, || Queue::new(heap))?;
        Ok(Queues { by_key })
    }

    // The queue of a key.
    pub fn at(&self, key: u16) -> &Queue
        ensures value { result.now ≡ slice_index_or self.now.by_key.items (slot key) result.now }
        ensures within { slot key < 4096 }
    {
        &self.by_key[slot(key)]
    }

    // Room in the queues of some marks for an entry each.
    pub fn widen(&mut self, marks: &[Mark]) -> Result<(), AllocError>
        ensures same { map entries_in self.new.by_key.items ≡ map entries_in self.old.by_key.items }
        ensures room { OnOk result (Roomy self.new.by_key.items (length marks.now) marks.now) }
        ensures wanting { OnErr result (Cramped self.old.by_key.items marks.now) }
    {
        for mark in marks {
            self.by_key[slot(mark.key)].reserve(marks.len())?;
        }
        Ok(())
    }

    // Puts an order behind the others in the queues of its marks.
    pub fn enter(&mut self, marks: &[Mark], place: u32)
        requires { Roomy self.old.by_key.items (length marks.now) marks.now }
        ensures { map entries_in self.new.by_key.items ≡ enter_all place marks.now (map entries_in self.old.by_key.items) }
    {
        for mark in marks {
            self.by_key[slot(mark.key)].push(Entry {
                place,
                writes: mark.writes,
            });
        }
    }

    // Takes the entries of a place out of the queues of some marks.
    pub fn leave(&mut self, marks: &[Mark], place: u32)
        ensures { map entries_in self.new.by_key.items ≡ leave_all place marks.now (map entries_in self.old.by_key.items) }
    {
        for mark in marks {
            self.by_key[slot(mark.key)].remove(place);
        }
    }
}
