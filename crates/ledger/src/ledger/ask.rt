// What a ledger answers.
ghost use Rattle.std.specs.Prelude.{◌≡◌, true, false, not, ◌||◌, [], IfOk, Decides, MatchOption, OnErr, slice_index_or};
ghost use Rattle.orders.specs.Contents.{contents_of};
ghost use Rattle.rows.specs.Lists.{rows_of};
ghost use Rattle.turns.specs.State.{marks_of, done_of, count_of, Wakes, Waking};
ghost use Rattle.ledger.specs.Own.{owns, marked, known};
ghost use Rattle.ledger.specs.State.{contents_in, value_in, may_look, may_write, CanLook, CanWrite, looked_at};

use super::Ledger;
use orders::Order;
use std::alloc::{AllocError, Global};

impl Ledger {
    pub fn number(&self) -> u8
        ensures { result ≡ self.now.owner.number }
    {
        self.owner.number()
    }

    // How many orders of the log it has.
    pub fn len(&self) -> u32
        ensures { result ≡ count_of self.now.turns }
    {
        self.turns.len()
    }

    // The value of a key of the house; none where it is another's.
    pub fn value(&self, key: u16) -> Option<u32>
        ensures { MatchOption result (owns self.now.owner.number key ≡ false) (λ v. (owns self.now.owner.number key ≡ true) × (v ≡ value_in self.now key)) }
    {
        if !self.owner.owns(key) {
            return None;
        }
        Some(self.values.get(key))
    }

    // Whether it may look for the order at a place: it reads a key here, is not noted yet, and is ready.
    pub fn may_look(&self, place: u32) -> bool
        ensures is { result ≡ may_look self.now place }
        ensures exact { Decides result (CanLook self.now place) }
    {
        self.touches(place, false) && !self.is_noted(place) && self.turns.is_ready(place)
    }

    // Whether it may write for the order at a place: it writes a key here, is not done yet, all that it reads is known, and it is ready.
    pub fn may_write(&self, place: u32) -> bool
        ensures is { result ≡ may_write self.now place }
        ensures exact { Decides result (CanWrite self.now place) }
    {
        self.touches(place, true)
            && !self.is_done(place)
            && self.has_looked(place)
            && self.turns.is_ready(place)
            && all_known(self.slots.row(place as usize))
    }

    // Whether it has noted what the order at a place reads here, if that is anything.
    fn has_looked(&self, place: u32) -> bool
        ensures { result ≡ (looked_at self.now place || not (marked false (marks_of self.now.turns place))) }
    {
        self.is_noted(place) || !self.touches(place, false)
    }

    // Whether the order at a place writes, or reads, a key of the house.
    pub fn touches(&self, place: u32, writes: bool) -> bool
        ensures { result ≡ marked writes (marks_of self.now.turns place) }
    {
        let marks = self.turns.marks(place);
        marks.iter().any(|mark| mark.writes == writes)
    }

    // Whether the house has noted its part of what the order at a place reads.
    pub fn is_noted(&self, place: u32) -> bool
        ensures { result ≡ looked_at self.now place }
    {
        self.looked.get(place as usize).copied().unwrap_or(false)
    }

    // Whether the order at a place is done in the house.
    pub fn is_done(&self, place: u32) -> bool
        ensures { result ≡ done_of self.now.turns place }
    {
        self.turns.is_done(place)
    }

    // The places whose orders wait for the one at a place and for no other, rising.
    pub fn wakes(&self, heap: Global, place: u32) -> Result<Vec<u32>, AllocError>
        ensures woken { IfOk result (λ v. Wakes self.now.turns place v.items) }
        ensures wanting { OnErr result (Waking self.now.turns place) }
    {
        self.turns.wakes(heap, place)
    }

    // The order at a place; one that does nothing where there is none or it is malformed.
    pub(super) fn order(&self, place: u32) -> Order
        ensures { contents_of result ≡ contents_in (slice_index_or (rows_of self.now.orders) place []) }
    {
        let mut order = Order::idle();
        let _ = order.decode_into(self.orders.row(place as usize));
        order
    }
}

fn all_known(slots: &[Option<u32>]) -> bool
    ensures { result ≡ known slots.now }
{
    slots.iter().all(|slot| slot.is_some())
}
