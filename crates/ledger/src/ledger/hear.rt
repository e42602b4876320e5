// What the others tell.
ghost use Rattle.std.specs.Prelude.{◌≡◌, [], length, MatchResult, slice_index_or, slice_set};
ghost use Rattle.orders.specs.Contents.{keys_of};
ghost use Rattle.rows.specs.Lists.{rows_of};
ghost use Rattle.ledger.specs.Own.{telling, told as told_by};
ghost use Rattle.ledger.specs.State.{Heard, RefusesTold};

use super::Ledger;
use crate::owner::Owner;
use crate::refusal::Refusal;
use orders::KeySet;
use rows::Rows;

impl Ledger {
    // House `from` tells what stood in its keys for the order at a place: kept where this house writes for the order and was not told before.
    pub fn hear(&mut self, from: u8, place: u32, values: &[u32]) -> Result<(), Refusal>
        ensures { MatchResult result (λ _. Heard self.old self.new from place values.now) (λ e. (self.new ≡ self.old) × RefusesTold e self.old from place (length values.now)) }
    {
        let teller = Owner::new(from).ok_or(Refusal::Mismatch)?;
        if place >= self.turns.len() {
            return Err(Refusal::Beyond);
        }
        let order = self.order(place);
        if teller.count(order.read_set()) != values.len() {
            return Err(Refusal::Mismatch);
        }
        if from == self.owner.number() {
            return Err(Refusal::Known);
        }
        if !self.touches(place, true) {
            return Err(Refusal::Known);
        }
        if values.is_empty() {
            return Err(Refusal::Known);
        }
        let at = place as usize;
        if has_told(teller, order.read_set(), self.slots.row(at)) {
            return Err(Refusal::Known);
        }
        keep(teller, order.read_set(), values, &mut self.slots, at);
        Ok(())
    }
}

// Whether a house has told before: its first key among some keys has a value.
fn has_told(teller: Owner, keys: &KeySet, slots: &[Option<u32>]) -> bool
    ensures { result ≡ told_by teller.number (keys_of keys.now) slots.now }
{
    let mut pairs = keys.as_slice().iter().zip(slots);
    let first = pairs.find(|(key, _)| teller.owns(**key));
    first.is_some_and(|(_, slot)| slot.is_some())
}

// Puts the values of a house into the slots of its keys. The row is named by its index, as the block lends no row to write in.
fn keep(teller: Owner, keys: &KeySet, values: &[u32], slots: &mut Rows<Option<u32>>, index: usize)
    ensures { rows_of slots.new ≡ slice_set (rows_of slots.old) index (telling teller.number (keys_of keys.now) values.now (slice_index_or (rows_of slots.old) index [])) }
{
    let own = keys
        .as_slice()
        .iter()
        .enumerate()
        .filter(|(_, key)| teller.owns(**key));
    for ((i, _), value) in own.zip(values) {
        slots.set(index, i, Some(*value));
    }
}
