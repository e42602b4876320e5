// Looks and writes. The house is taken by value and handed back, with what was noted or written.
ghost use Rattle.std.specs.Prelude.{◌≡◌, ◌+◌, ◌<◌, ◌≤◌, ◌⊎◌, MatchResult, Ok, Err, vec_len};
ghost use Rattle.std.specs.VecDeque.{deque_len, deque_capacity};
ghost use Rattle.turns.specs.State.{Wakes, Waking};
ghost use Rattle.ledger.specs.Notes.{values_of};
ghost use Rattle.ledger.specs.State.{Looked, Wrote, may_look, may_write};
ghost use Rattle.shard.specs.State.{ready_of, Becomes, Ends, Extends, RefusesStep, Unmoved};
ghost use Rattle.ledger.specs.declared.refusal.Refusal.TheVariants.{Memory};
ghost use Rattle.shard.specs.declared.task.Task.TheVariants.{Look, Write};

use super::House;
use super::append::{list, list_all};
use crate::task::Task;
use ledger::{Ledger, Note, Refusal};
use orders::Outcome;
use std::alloc::Global;
use std::collections::VecDeque;

impl House {
    // Looks for the order at a place. What it notes is to be told to each house that writes for the order, once it is on disk.
    pub fn look(mut self, place: u32) -> Result<(House, Note), (House, Refusal)>
        ensures { MatchResult result (λ p. Looked self.ledger p.0.ledger place (values_of p.1) × Becomes self.ledger (ready_of self) p.0.ledger (ready_of p.0)) (λ p. Unmoved self p.0 × RefusesStep p.1 (may_look self.ledger place) self place) }
    {
        let came = self.look_in_place(place);
        self.hand_back(came)
    }

    // Writes for the order at a place: what the order came to.
    pub fn write(mut self, place: u32) -> Result<(House, Outcome), (House, Refusal)>
        ensures { MatchResult result (λ p. Wrote self.ledger p.0.ledger place p.1 × Becomes self.ledger (ready_of self) p.0.ledger (ready_of p.0)) (λ p. Unmoved self p.0 × RefusesStep p.1 (may_write self.ledger place) self place) }
    {
        let came = self.write_in_place(place);
        self.hand_back(came)
    }

    // The house, with what came of a step of it.
    fn hand_back<T>(self, came: Result<T, Refusal>) -> Result<(House, T), (House, Refusal)>
        ensures { MatchResult result (λ p. (p.0 ≡ self) × (came ≡ Ok p.1)) (λ p. (p.0 ≡ self) × (came ≡ Err p.1)) }
    {
        match came {
            Ok(value) => Ok((self, value)),
            Err(e) => Err((self, e)),
        }
    }

    pub(super) fn look_in_place(&mut self, place: u32) -> Result<Note, Refusal>
        ensures { MatchResult result (λ n. Looked self.old.ledger self.new.ledger place (values_of n) × Becomes self.old.ledger (ready_of self.old) self.new.ledger (ready_of self.new) × Extends self.old self.new × Ends (Look place) self.old.ledger self.new.ledger) (λ e. Unmoved self.old self.new × RefusesStep e (may_look self.old.ledger place) self.old place) }
    {
        if !self.ledger.may_look(place) {
            return Err(Refusal::NotYet);
        }
        if self.ledger.touches(place, true) {
            self.tasks.reserve(1)?;
            let note = self.ledger.look(place)?;
            list(&self.ledger, place, &mut self.tasks);
            return Ok(note);
        }
        // it is done: whoever waits for it may go on
        let woken = woken(&self.ledger, self.heap, place, &mut self.tasks)?;
        let note = self.ledger.look(place)?;
        list_all(&self.ledger, woken.as_slice(), &mut self.tasks);
        Ok(note)
    }

    // What it has in common with a look is three calls: one function for both would take the step as a closure, and be no shorter.
    pub(super) fn write_in_place(&mut self, place: u32) -> Result<Outcome, Refusal>
        ensures { MatchResult result (λ o. Wrote self.old.ledger self.new.ledger place o × Becomes self.old.ledger (ready_of self.old) self.new.ledger (ready_of self.new) × Extends self.old self.new × Ends (Write place) self.old.ledger self.new.ledger) (λ e. Unmoved self.old self.new × RefusesStep e (may_write self.old.ledger place) self.old place) }
    {
        if !self.ledger.may_write(place) {
            return Err(Refusal::NotYet);
        }
        let woken = woken(&self.ledger, self.heap, place, &mut self.tasks)?;
        let outcome = self.ledger.write(place)?;
        list_all(&self.ledger, woken.as_slice(), &mut self.tasks);
        Ok(outcome)
    }
}

// The places whose orders wait for the one at a place and for no other, with room in a list for a task of each. As a method of the
// house it would have to say that the rest stays, and be longer.
fn woken(
    ledger: &Ledger,
    heap: Global,
    place: u32,
    tasks: &mut VecDeque<Task>,
) -> Result<Vec<u32>, Refusal>
    ensures items { tasks.new.items ≡ tasks.old.items }
    ensures woken { MatchResult result (λ v. Wakes ledger.now.turns place v.items × (deque_len tasks.new + vec_len v ≤ deque_capacity tasks.new)) (λ e. (e ≡ Memory) × (Waking ledger.now.turns place ⊎ (deque_capacity tasks.old < deque_len tasks.old + 1))) }
{
    let woken = ledger.wakes(heap, place)?;
    tasks.reserve(woken.len())?;
    Ok(woken)
}
