// An order and its key sets. A value of these types is valid: the ghost fields say so.
ghost use Rattle.std.specs.Prelude.{◌≡◌, true, length};
ghost use Rattle.bounded.specs.Items.{items_of};
ghost use Rattle.orders.specs.Valid.{rising, all_fit};

use crate::instruction::Instruction;
use bounded::Bounded;

mod beside;
mod decode;
mod encode;
mod parts;

pub use beside::Cursor;

// At most sixteen keys, each above the one before. Values stand beside them in slices of their own, in the same order: they come
// from elsewhere, and are lent.
#[derive(Clone, Copy, Debug, PartialEq, Eq)]
pub struct KeySet {
    keys: Bounded<u16, 16>,
    ghost rises: { rising 0 (items_of keys) ≡ true },
}

// A transaction: the keys that it reads, those that it may write, and what it does.
#[derive(Clone, Copy, Debug, PartialEq, Eq)]
pub struct Order {
    reads: KeySet,
    writes: KeySet,
    code: Bounded<Instruction, 64>,
    ghost fits: { all_fit (length (items_of writes.keys)) (items_of code) ≡ true },
}
