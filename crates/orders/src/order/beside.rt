// Values that stand beside the keys of a set.
ghost use Rattle.std.specs.Prelude.{◌≡◌, ◌<◌, ◌≤◌, ℕ, true, unwrap_or};
ghost use Rattle.orders.specs.Contents.{keys_of};
ghost use Rattle.orders.specs.Transaction.{lookup};
ghost use Rattle.orders.specs.Valid.{rising};

use super::KeySet;

// A place among them, for keys that are asked for rising: what was passed over for one is not gone through for the next.
#[derive(Clone, Copy)]
pub struct Cursor<'a> {
    keys: &'a [u16],
    values: &'a [u32],
    // how many keys were passed over
    place: usize,
    ghost rises: { rising 0 keys.now ≡ true },
}

impl KeySet {
    ghost use Rattle.orders.specs.Seeking.{value_in};

    // The value beside a key, of values in the order of the keys; none where the key is not there or has no value.
    pub fn value_of(&self, values: &[u32], key: u16) -> Option<u32>
        ensures { (other : ℕ) → unwrap_or result other ≡ lookup (keys_of self.now) values.now key other }
    {
        let place = self.as_slice().iter().position(|k| key == *k)?;
        values.get(place).copied()
    }

    // Values in the order of the keys, for keys that are asked for rising.
    pub fn cursor<'a>(&'a self, values: &'a [u32]) -> Cursor<'a>
        ensures { (k other : ℕ) → value_in result k other ≡ lookup (keys_of self.now) values.now k other }
    {
        Cursor {
            keys: self.as_slice(),
            values,
            place: 0,
        }
    }
}

impl<'a> Cursor<'a> {
    ghost use Rattle.orders.specs.Seeking.{value_in};

    // The value that is still beside a key; none where there is none. Then those of lower keys are passed over, and no other.
    pub fn seek(&mut self, key: u16) -> Option<u32>
        ensures value { (other : ℕ) → unwrap_or result other ≡ value_in self.old key other }
        ensures passed { (k other : ℕ) → k < key → value_in self.new k other ≡ other }
        ensures kept { (k other : ℕ) → key ≤ k → value_in self.new k other ≡ value_in self.old k other }
    {
        let mut place = self.place;
        while place < self.keys.len() && self.keys[place] < key {
            place += 1;
        }
        self.place = place;
        match self.keys.get(place) {
            Some(found) if *found == key => self.values.get(place).copied(),
            _ => None,
        }
    }
}
