// The ledger of one house.
ghost use Rattle.std.specs.Prelude.{◌≡◌, ℕ, ◌<◌, true, false, not, ◌||◌, [], length, vec_len, slice_index_or};
ghost use Rattle.orders.specs.Meaning.{transaction};
ghost use Rattle.rows.specs.Lists.{rows_of};
ghost use Rattle.turns.specs.State.{marks_of, done_of, count_of};
ghost use Rattle.ledger.specs.Own.{marks_for, alike_marks, marked, own_known, slot_count};

mod append;
mod ask;
mod hear;
mod look;
mod write;

use crate::owner::Owner;
use crate::values::Values;
use rows::Rows;
use turns::Turns;

#[derive(Drop)]
pub struct Ledger {
    owner: Owner,
    // What follows has a row or an item for each order, by place: rows of different lengths lie in one block each, and so no
    // order takes memory of its own, as a list of structs would for each of its lists.
    // the bytes of each order that the house has
    orders: Rows<u8>,
    turns: Turns,
    values: Values,
    // for an order that touches the house, what stood in each key that it reads, as noted or told
    slots: Rows<Option<u32>>,
    // whether it has noted its own part of them
    looked: Vec<bool>,
    ghost ordered: { length (rows_of orders) ≡ count_of turns },
    ghost slotted: { length (rows_of slots) ≡ count_of turns },
    ghost noted: { vec_len looked ≡ count_of turns },
    // what is waited for is what the orders say
    ghost matched: { (i : ℕ) → alike_marks (marks_of turns i) (marks_for owner.number (transaction (slice_index_or (rows_of orders) i []))) ≡ true },
    ghost wide: { (i : ℕ) → length (slice_index_or (rows_of slots) i []) ≡ slot_count owner.number (transaction (slice_index_or (rows_of orders) i [])) },
    // what is noted has a value
    ghost filled: { (i : ℕ) → slice_index_or looked.items i false ≡ true → own_known owner.number (transaction (slice_index_or (rows_of orders) i [])).reads (slice_index_or (rows_of slots) i []) ≡ true },
    // what is done and reads a key here was noted
    ghost seen: { (i : ℕ) → done_of turns i ≡ true → marked false (marks_of turns i) ≡ true → slice_index_or looked.items i false ≡ true },
    // an order that writes nothing here is done once it is noted, or at once
    ghost read: { (i : ℕ) → i < vec_len looked → marked true (marks_of turns i) ≡ false → done_of turns i ≡ (not (marked false (marks_of turns i)) || slice_index_or looked.items i false) },
}
