// Orders that come in.
ghost use Rattle.std.specs.Prelude.{◌≡◌, [], ◌∷◌, ◌++◌, length, IfOk, MatchResult, ◌==◌};
ghost use Rattle.rows.specs.Lists.{rows_of};
ghost use Rattle.turns.specs.State.{count_of, Same, Refuses};

use super::Turns;
use crate::entry::Mark;
use crate::error::TurnsError;
use crate::queues::Queues;
use rows::Rows;
use std::alloc::{AllocError, Global};

impl Turns {
    // No orders yet.
    pub fn new(heap: Global) -> Result<Turns, AllocError>
        ensures marks { IfOk result (λ t. rows_of t.marks ≡ []) }
        ensures done { IfOk result (λ t. t.done.items ≡ []) }
    {
        let queues = Queues::new(heap)?;
        Ok(Turns {
            marks: Rows::new(heap),
            done: Vec::new(heap),
            queues,
        })
    }

    // One order more, with what it touches: its place. One that touches nothing is done at once. A refusal changes nothing.
    pub fn append(&mut self, marks: &[Mark]) -> Result<u32, TurnsError>
        ensures { MatchResult result (λ p. (p ≡ count_of self.old) × (rows_of self.new.marks ≡ rows_of self.old.marks ++ marks.now ∷ []) × (self.new.done.items ≡ self.old.done.items ++ (length marks.now == 0) ∷ [])) (λ e. Same self.old self.new × Refuses e self.old marks.now) }
    {
        let place = self.len();
        if place == u32::MAX {
            return Err(TurnsError::Full);
        }
        self.queues.widen(marks)?;
        self.done.reserve(1)?;
        self.marks.push(marks)?;
        self.done.push_reserved(marks.is_empty());
        self.queues.enter(marks, place);
        Ok(place)
    }
}
