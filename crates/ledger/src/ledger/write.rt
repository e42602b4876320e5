// Writing: the write phase of an order.
ghost use Rattle.std.specs.Prelude.{◌≡◌, ℕ, ◌<◌, ◌≤◌, true, false, ◌&&◌, length, if◌then◌else◌, MatchResult};
ghost use Rattle.orders.specs.Contents.{keys_of};
ghost use Rattle.orders.specs.Transaction.{lookup, is_in};
ghost use Rattle.ledger.specs.Notes.{values_of};
ghost use Rattle.ledger.specs.Own.{owns, given, slot_in};
ghost use Rattle.ledger.specs.State.{Wrote, may_write};
ghost use Rattle.ledger.specs.declared.refusal.Refusal.TheVariants.{NotYet};

use super::Ledger;
use crate::note::Note;
use crate::owner::Owner;
use crate::refusal::Refusal;
use crate::values::Values;
use interpreter::run;
use orders::{KeySet, Outcome};

impl Ledger {
    // Works out the order at a place from the values that it reads, and writes those of its keys that are the house's own. It is then done.
    pub fn write(&mut self, place: u32) -> Result<Outcome, Refusal>
        ensures { MatchResult result (λ o. Wrote self.old self.new place o) (λ e. (e ≡ NotYet) × (may_write self.old place ≡ false) × (self.new ≡ self.old)) }
    {
        if !self.may_write(place) {
            return Err(Refusal::NotYet);
        }
        let order = self.order(place);
        let read = given(self.slots.row(place as usize));
        let outcome = run(&order, read.as_slice());
        match &outcome {
            Outcome::Writes(written) => {
                put(self.owner, order.write_set(), written, &mut self.values);
            }
            // what it does not write stands as it was read
            Outcome::Nothing => {
                put_back(
                    self.owner,
                    order.write_set(),
                    order.read_set(),
                    read.as_slice(),
                    &mut self.values,
                );
            }
        }
        self.turns.finish(place);
        Ok(outcome)
    }
}

// The values of some slots, 0 for a slot without.
fn given(slots: &[Option<u32>]) -> Note
    requires { length slots.now ≤ 16 }
    ensures { values_of result ≡ given slots.now }
{
    let mut read = Note::empty();
    for slot in slots {
        read.push(slot.unwrap_or(0));
    }
    read
}

// Overwrites the house's own among some keys.
fn put(owner: Owner, keys: &KeySet, values: &[u32; 16], own: &mut Values)
    ensures { (k : ℕ) → owns owner.number k ≡ true → slot_in own.new.own.items k ≡ lookup (keys_of keys.now) values.now k (slot_in own.old.own.items k) }
{
    for (key, value) in keys.as_slice().iter().zip(values) {
        if owner.owns(*key) {
            own.set(*key, *value);
        }
    }
}

// Overwrites the house's own among some keys by what was read there, where it was.
fn put_back(owner: Owner, keys: &KeySet, reads: &KeySet, read: &[u32], own: &mut Values)
    ensures { (k : ℕ) → owns owner.number k ≡ true → slot_in own.new.own.items k ≡ (if is_in k (keys_of keys.now) then lookup (keys_of reads.now) read.now k (slot_in own.old.own.items k) else slot_in own.old.own.items k) }
{
    for key in keys.as_slice() {
        if owner.owns(*key) {
            let before = own.get(*key);
            let value = reads.value_of(read, *key).unwrap_or(before);
            own.set(*key, value);
        }
    }
}
