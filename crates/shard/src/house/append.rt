// Orders that come in, and what the others tell.
ghost use Rattle.std.specs.Prelude.{◌≡◌, ◌+◌, ◌<◌, ◌≤◌, [], ◌++◌, length, MatchResult};
ghost use Rattle.std.specs.VecDeque.{deque_len, deque_capacity};
ghost use Rattle.turns.specs.State.{count_of};
ghost use Rattle.ledger.specs.State.{Fresh, Grown, Heard, Same, RefusesHouse, RefusesTold};
ghost use Rattle.shard.specs.State.{ready_of, Becomes, RefusesOrder, RefusesWord};
ghost use Rattle.shard.specs.Tasks.{task_at, tasks_at, listed};

use super::House;
use crate::task::Task;
use ledger::{Ledger, Refusal};
use std::alloc::Global;
use std::collections::VecDeque;

impl House {
    // A house with no orders yet, every value 0. There are houses 0 to 15.
    pub fn new(heap: Global, number: u8) -> Result<House, Refusal>
        ensures { MatchResult result (λ h. Fresh h.ledger number × (ready_of h ≡ [])) (λ e. RefusesHouse e number) }
    {
        let ledger = Ledger::new(heap, number)?;
        Ok(House {
            heap,
            ledger,
            tasks: VecDeque::new(heap),
        })
    }

    // What it has and knows.
    pub fn ledger(&self) -> &Ledger
        ensures { result.now ≡ self.now.ledger }
    {
        &self.ledger
    }

    // The next order of the log: its place. A malformed one keeps its place and does nothing. A refusal changes nothing.
    pub fn append(&mut self, bytes: &[u8]) -> Result<u32, Refusal>
        ensures { MatchResult result (λ p. (p ≡ count_of self.old.ledger.turns) × Grown self.old.ledger self.new.ledger bytes.now × Becomes self.old.ledger (ready_of self.old) self.new.ledger (ready_of self.new)) (λ e. Same self.old.ledger self.new.ledger × (ready_of self.new ≡ ready_of self.old) × RefusesOrder e self.old bytes.now) }
    {
        if self.ledger.len() == u32::MAX {
            return Err(Refusal::Full);
        }
        self.tasks.reserve(1)?;
        let place = self.ledger.append(bytes)?;
        list(&self.ledger, place, &mut self.tasks);
        Ok(place)
    }

    // House `from` tells what stood in its keys for the order at a place: kept where this house writes for the order and was not told before.
    pub fn hear(&mut self, from: u8, place: u32, values: &[u32]) -> Result<(), Refusal>
        ensures { MatchResult result (λ _. Heard self.old.ledger self.new.ledger from place values.now × Becomes self.old.ledger (ready_of self.old) self.new.ledger (ready_of self.new)) (λ e. (self.new.ledger ≡ self.old.ledger) × (ready_of self.new ≡ ready_of self.old) × RefusesWord e self.old from place (length values.now)) }
    {
        self.tasks.reserve(1)?;
        self.ledger.hear(from, place, values)?;
        if self.ledger.may_write(place) {
            self.tasks.push_back_reserved(Task::Write(place));
        }
        Ok(())
    }
}

// Lists what may be done now for the orders at some places. It takes the ledger and the list, and no house, since what a house says of
// them does not hold in between.
pub(super) fn list_all(ledger: &Ledger, places: &[u32], tasks: &mut VecDeque<Task>)
    requires { deque_len tasks.old + length places.now ≤ deque_capacity tasks.old }
    ensures { tasks.new.items ≡ tasks.old.items ++ tasks_at ledger.now places.now }
{
    for place in places {
        list(ledger, *place, tasks);
    }
}

// Lists what may be done now for the order at a place: a look or, where it has looked, a write. It takes no house, as `list_all`.
pub(super) fn list(ledger: &Ledger, place: u32, tasks: &mut VecDeque<Task>)
    requires { deque_len tasks.old < deque_capacity tasks.old }
    ensures items { tasks.new.items ≡ tasks.old.items ++ listed (task_at ledger.now place) [] }
    ensures len { deque_len tasks.new ≤ deque_len tasks.old + 1 }
    ensures capacity { deque_capacity tasks.new ≡ deque_capacity tasks.old }
{
    if ledger.may_look(place) {
        tasks.push_back_reserved(Task::Look(place));
        return;
    }
    if ledger.may_write(place) {
        tasks.push_back_reserved(Task::Write(place));
    }
}
