// Orders that come in.
ghost use Rattle.std.specs.Prelude.{◌≡◌, MatchResult};
ghost use Rattle.turns.specs.State.{count_of};
ghost use Rattle.ledger.specs.State.{Fresh, Grown, Same, RefusesHouse, RefusesOrder};

use super::Ledger;
use crate::owner::Owner;
use crate::refusal::Refusal;
use crate::values::Values;
use orders::Order;
use rows::Rows;
use std::alloc::Global;
use turns::Turns;

impl Ledger {
    // A house with no orders yet, every value 0. There are houses 0 to 15.
    pub fn new(heap: Global, number: u8) -> Result<Ledger, Refusal>
        ensures { MatchResult result (λ s. Fresh s number) (λ e. RefusesHouse e number) }
    {
        let owner = Owner::new(number).ok_or(Refusal::Mismatch)?;
        let turns = Turns::new(heap)?;
        let values = Values::new(heap)?;
        Ok(Ledger {
            owner,
            orders: Rows::new(heap),
            turns,
            values,
            slots: Rows::new(heap),
            looked: Vec::new(heap),
        })
    }

    // The next order of the log: its place. A malformed one keeps its place and does nothing. A refusal changes nothing.
    pub fn append(&mut self, bytes: &[u8]) -> Result<u32, Refusal>
        ensures { MatchResult result (λ p. (p ≡ count_of self.old.turns) × Grown self.old self.new bytes.now) (λ e. Same self.old self.new × RefusesOrder e self.old bytes.now) }
    {
        if self.turns.len() == u32::MAX {
            return Err(Refusal::Full);
        }
        let mut order = Order::idle();
        let _ = order.decode_into(bytes);
        let marks = self.owner.marks(&order);
        let marks = marks.as_slice();
        let width = if marks.is_empty() {
            0
        } else {
            order.read_set().as_slice().len()
        };
        self.orders.reserve(bytes.len())?;
        self.slots.reserve(width)?;
        self.looked.reserve(1)?;
        let place = self.turns.append(marks)?;
        // there is room for these
        let _ = self.orders.push(bytes);
        let none = [None; 16];
        let _ = self.slots.push(&none[..width]);
        self.looked.push_reserved(false);
        Ok(place)
    }
}
