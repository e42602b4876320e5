// What may be done now, and doing it.
ghost use Rattle.std.specs.Prelude.{◌≡◌, [], IfOk, MatchResult};
ghost use Rattle.std.specs.Result.{result_err};
ghost use Rattle.ledger.specs.declared.refusal.Refusal.TheVariants.{Memory};
ghost use Rattle.shard.specs.State.{ready_of, Does, Extends, Goes, Next, RefusesTask, Unmoved};

use super::{House, Went};
use crate::task::Task;
use ledger::Refusal;
use std::alloc::AllocError;

impl House {
    // The looks and writes that may be done now, in the order in which they came to be so.
    pub fn ready(&self) -> Result<Vec<Task>, AllocError>
        ensures { IfOk result (λ v. v.items ≡ ready_of self.now) }
    {
        let live = self
            .tasks
            .iter()
            .copied()
            .filter(|task| task.is_live(&self.ledger));
        live.collect(self.heap)
    }

    // Of the looks and writes that may be done when it begins it does the first so many, in that order, and nothing else.
    pub fn go(&mut self, count: usize) -> Went
        ensures { Goes count self.old self.new result }
    {
        let mut done = Vec::new(self.heap);
        let refusal = self.go_on(count, &mut done).err();
        Went { done, refusal }
    }

    // Goes through the tasks that are listed when it begins, until so many are done. What is listed on the way is for the next
    // go, so the rounds are counted before the first.
    fn go_on(&mut self, count: usize, done: &mut Vec<Task>) -> Result<(), Refusal>
        requires { done.old.items ≡ [] }
        ensures { Goes count self.old self.new (record { done = done.new; refusal = result_err result }) }
    {
        for _ in 0..self.tasks.len() {
            if done.len() >= count {
                break;
            }
            self.next(done)?;
        }
        Ok(())
    }

    // Takes the first task off the list, and does it unless it was done before.
    fn next(&mut self, done: &mut Vec<Task>) -> Result<(), Refusal>
        ensures { MatchResult result (λ _. Next self.old self.new done.old.items done.new.items) (λ e. Unmoved self.old self.new × (done.new.items ≡ done.old.items) × (e ≡ Memory)) }
    {
        let Some(task) = self.tasks.front().copied() else {
            return Ok(());
        };
        if task.is_live(&self.ledger) {
            done.reserve(1)?;
            self.perform(task)?;
            done.push_reserved(task);
        }
        self.tasks.pop_front();
        Ok(())
    }

    fn perform(&mut self, task: Task) -> Result<(), Refusal>
        ensures { MatchResult result (λ _. Does task self.old.ledger (ready_of self.old) self.new.ledger (ready_of self.new) × Extends self.old self.new) (λ e. Unmoved self.old self.new × RefusesTask e task self.old) }
    {
        match task {
            Task::Look(place) => {
                let _ = self.look_in_place(place)?;
            }
            Task::Write(place) => {
                let _ = self.write_in_place(place)?;
            }
        }
        Ok(())
    }
}
