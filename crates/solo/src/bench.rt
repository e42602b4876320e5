// A house that gets a log, so many orders at a time, and each time does what it can.
ghost use Rattle.std.specs.Prelude.{◌≡◌, ◌%◌, IfSome};

use ledger::Refusal;
use line::Frames;
use shard::{House, Task};
use std::alloc::Global;
use std::io::Write;
use std::{io, str};

// So many orders come in before it does what it can.
const BATCH: u32 = 1000;

#[derive(Drop)]
pub struct Bench {
    worker: Worker,
    // the bytes behind the last order
    rest: Vec<u8>,
}

// The house, and what it did.
#[derive(Drop)]
struct Worker {
    house: House,
    // how many orders came in since it did what it could
    fresh: u32,
    looks: u64,
    writes: u64,
}

impl Bench {
    pub fn new(heap: Global, house: House) -> Bench {
        Bench {
            worker: Worker {
                house,
                fresh: 0,
                looks: 0,
                writes: 0,
            },
            rest: Vec::new(heap),
        }
    }

    // The log goes on with these bytes, wherever they are cut. An `Execution` takes them likewise; what the two share is this loop over
    // a buffer, which a function with a closure would not make shorter.
    pub fn push(&mut self, piece: &[u8]) -> Result<(), Refusal> {
        self.rest.extend_from_slice(piece)?;
        let mut frames = Frames::new(self.rest.as_slice());
        for order in frames.by_ref() {
            self.worker.take(order)?;
        }
        let left = frames.rest().len();
        let count = self.rest.len().saturating_sub(left);
        self.rest.drain(..count);
        Ok(())
    }

    // The log ends here.
    pub fn finish(&mut self) -> Result<(), Refusal> {
        self.worker.settle()
    }

    // What was done, and the keys of the house whose values are not 0.
    pub fn print<W: Write>(&self, out: &mut W) -> io::Result<()> {
        let Worker {
            house,
            looks,
            writes,
            ..
        } = &self.worker;
        let orders = house.ledger().len();
        writeln!(out, "orders {orders} looks {looks} writes {writes}")?;
        for key in 0..=u16::MAX {
            if let Some(value) = house.ledger().value(key) {
                if value != 0 {
                    writeln!(out, "{key} {value}")?;
                }
            }
        }
        Ok(())
    }
}

impl Worker {
    // An order comes in.
    fn take(&mut self, order: &[u8]) -> Result<(), Refusal> {
        self.house.append(order)?;
        self.fresh = self.fresh.saturating_add(1);
        if self.fresh >= BATCH {
            self.settle()?;
        }
        Ok(())
    }

    // Does what may be done until there is nothing more, and counts it.
    fn settle(&mut self) -> Result<(), Refusal> {
        self.fresh = 0;
        // what one go wakes is for the next, and no clause says how often: a `loop` has no measure, and a chain would want one too
        for _ in 0..u64::MAX {
            let went = self.house.go(usize::MAX);
            self.count(went.done.as_slice());
            if let Some(refusal) = went.refusal {
                return Err(refusal);
            }
            if went.done.is_empty() {
                break;
            }
        }
        Ok(())
    }

    fn count(&mut self, tasks: &[Task]) {
        for task in tasks {
            let done = match task {
                Task::Look(_) => &mut self.looks,
                Task::Write(_) => &mut self.writes,
            };
            *done = done.saturating_add(1);
        }
    }
}

// The most memory that the process has had, in bytes, from what the system says of it.
pub fn peak(status: &[u8]) -> Option<u64>
    ensures { IfSome result (λ bytes. bytes % 1024 ≡ 0) }
{
    let line = status
        .split(|byte| *byte == b'\n')
        .find_map(|line| line.strip_prefix(b"VmHWM:"))?;
    let mut words = str::from_utf8(line).ok()?.split_whitespace();
    let kilobytes: u64 = words.next()?.parse().ok()?;
    kilobytes.checked_mul(1024)
}
