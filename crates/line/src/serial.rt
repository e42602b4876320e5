// A log, done one order after the other, from bytes that come in pieces.
ghost use Rattle.std.specs.Prelude.{◌+◌, ◌≤◌, vec_len};

mod pieces;
mod steps;

use crate::store::Store;

// What the orders so far came to.
#[derive(Drop)]
struct Progress {
    store: Store,
    // how many orders were done
    done: u32,
    // the places of those that are malformed
    malformed: Vec<u32>,
    ghost few: { done + vec_len malformed ≤ 4294967295 },
}

// What a log came to, as far as its bytes have come.
#[derive(Drop)]
pub struct Execution {
    progress: Progress,
    // the bytes behind the last order
    rest: Vec<u8>,
}
