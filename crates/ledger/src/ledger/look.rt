// Looking: the read phase of an order.
ghost use Rattle.std.specs.Prelude.{◌≡◌, ◌<◌, ◌≤◌, true, false, [], map, length, vec_len, filter, MatchResult, slice_index_or, slice_set};
ghost use Rattle.orders.specs.Contents.{keys_of};
ghost use Rattle.rows.specs.Lists.{rows_of};
ghost use Rattle.ledger.specs.Notes.{values_of};
ghost use Rattle.ledger.specs.Own.{owns, noting, slot_in};
ghost use Rattle.ledger.specs.State.{Looked, may_look};
ghost use Rattle.ledger.specs.declared.refusal.Refusal.TheVariants.{NotYet};

use super::Ledger;
use crate::note::Note;
use crate::owner::Owner;
use crate::refusal::Refusal;
use crate::values::Values;
use orders::KeySet;
use rows::Rows;

impl Ledger {
    // Notes the values of its keys that the order at a place reads, once and for all. An order that writes none of its keys is then done.
    pub fn look(&mut self, place: u32) -> Result<Note, Refusal>
        ensures { MatchResult result (λ n. Looked self.old self.new place (values_of n)) (λ e. (e ≡ NotYet) × (may_look self.old place ≡ false) × (self.new ≡ self.old)) }
    {
        if !self.may_look(place) {
            return Err(Refusal::NotYet);
        }
        let order = self.order(place);
        let writes = self.touches(place, true);
        let at = place as usize;
        let note = take_note(
            self.owner,
            order.read_set(),
            &self.values,
            &mut self.slots,
            at,
        );
        self.looked[at] = true;
        if !writes {
            self.turns.finish(place);
        }
        Ok(note)
    }
}

// Copies the values of the house's own keys among some keys into the slots of the order at an index. The row is named by its
// index, as the block lends no row to write in.
fn take_note(
    owner: Owner,
    keys: &KeySet,
    values: &Values,
    slots: &mut Rows<Option<u32>>,
    index: usize,
) -> Note
    ensures noted { values_of result ≡ map (λ k. slot_in values.now.own.items k) (filter (owns owner.number) (keys_of keys.now)) }
    ensures slots { rows_of slots.new ≡ slice_set (rows_of slots.old) index (noting owner.number (λ k. slot_in values.now.own.items k) (keys_of keys.now) (slice_index_or (rows_of slots.old) index [])) }
{
    let mut note = Note::empty();
    for (i, key) in keys.as_slice().iter().enumerate() {
        if owner.owns(*key) {
            let value = values.get(*key);
            slots.set(index, i, Some(value));
            note.push(value);
        }
    }
    note
}
