// Execution, piece by piece.
ghost use Rattle.std.specs.Prelude.{◌≡◌, ℕ, List, [], ◌++◌, length, IfOk, MatchResult, OnErr};
ghost use Rattle.line.specs.Serial.{Executes, Wanting};

use super::{Execution, Progress};
use crate::store::Store;
use std::alloc::{AllocError, Global};

impl Execution {
    // A log of no bytes, from keys that are all 0.
    pub fn new(heap: Global) -> Result<Execution, AllocError>
        ensures { IfOk result (λ e. Executes [] e) }
    {
        let progress = Progress::new(heap)?;
        Ok(Execution {
            progress,
            rest: Vec::new(heap),
        })
    }

    // The log goes on with these bytes, wherever they are cut. For want of memory nothing changes. (The benchmark in solo takes pieces
    // likewise: what takes the orders and what is promised differ, and a function with a closure would be no shorter.)
    pub fn push(&mut self, piece: &[u8]) -> Result<(), AllocError>
        ensures executes { (bs : List ℕ) → Executes bs self.old → MatchResult result (λ _. Executes (bs ++ piece.now) self.new) (λ _. Executes bs self.new) }
        ensures wanting { OnErr result (Wanting self.old (length piece.now)) }
    {
        // an order takes two bytes at least
        self.progress
            .reserve(self.rest.len() / 2 + piece.len() / 2 + 1)?;
        self.rest.extend_from_slice(piece)?;
        let count = self.progress.run(self.rest.as_slice());
        // `drain` says the same, but it turns all the bytes round and was measured to be slower
        let left = self.rest.len() - count;
        self.rest.copy_within(count.., 0);
        self.rest.truncate(left);
        Ok(())
    }

    pub fn store(&self) -> &Store
        ensures { result.now ≡ self.now.progress.store }
    {
        &self.progress.store
    }

    // How many orders were done.
    pub fn done(&self) -> u32
        ensures { result ≡ self.now.progress.done }
    {
        self.progress.done
    }

    // The places of the orders that are malformed.
    pub fn malformed(&self) -> &[u32]
        ensures { result.now ≡ self.now.progress.malformed.items }
    {
        self.progress.malformed.as_slice()
    }

    // The bytes behind the last order.
    pub fn rest(&self) -> &[u8]
        ensures { result.now ≡ self.now.rest.items }
    {
        self.rest.as_slice()
    }
}
