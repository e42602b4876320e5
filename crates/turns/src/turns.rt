// The orders of the log by the keys of the house that they touch.
ghost use Rattle.std.specs.Prelude.{◌≡◌, ℕ, ◌<◌, ◌≤◌, true, false, [], map, length, get_or, vec_len, slice_index_or};
ghost use Rattle.rows.specs.Lists.{rows_of};
ghost use Rattle.turns.specs.Entries.{entries_in};
ghost use Rattle.turns.specs.Queues.{alike, queue};

mod append;
mod finish;
mod wait;

use crate::entry::Mark;
use crate::queues::Queues;
use rows::Rows;

#[derive(Drop)]
pub struct Turns {
    // what each order touches, by place
    marks: Rows<Mark>,
    // whether it is done, beside its marks: those lie in one block for all orders, so that an order costs no allocation
    done: Vec<bool>,
    queues: Queues,
    ghost counted: { vec_len done ≡ length (rows_of marks) },
    ghost few: { vec_len done ≤ 4294967295 },
    // what the queues say is what the log says
    ghost queued: { (q : ℕ) → q < 4096 → alike (slice_index_or (map entries_in queues.by_key.items) q []) (queue (λ i. get_or (rows_of marks) i []) (λ i. get_or done.items i false) q (vec_len done)) ≡ true },
}
