// The house.
ghost use Rattle.std.specs.Prelude.{◌≡◌, true, ◌&&◌};
ghost use Rattle.shard.specs.Tasks.{has, distinct, live, may_do};
ghost use Rattle.shard.specs.declared.task.Task.{Task as TaskOf};

mod append;
mod go;
mod steps;

use crate::task::Task;
use ledger::{Ledger, Refusal};
use std::alloc::Global;
use std::collections::VecDeque;

#[derive(Drop)]
pub struct House {
    heap: Global,
    ledger: Ledger,
    // the tasks in the order in which they came to be ready; those that were done since are passed over
    tasks: VecDeque<Task>,
    ghost once: { distinct tasks.items ≡ true },
    // what may be done is listed, and what is listed and not done may be done
    ghost listed: { (t : TaskOf) → (has t tasks.items && live ledger t) ≡ may_do ledger t },
}

// What was done at one go.
#[derive(Debug, Drop)]
pub struct Went {
    pub done: Vec<Task>,
    // why it stopped before the count was reached, if it did: want of memory
    pub refusal: Option<Refusal>,
}
