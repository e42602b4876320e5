// Orders, the transactions that the log lists: their type, their bytes and, in specs/, what they mean.
#![tactic(auto)]

mod instruction;
mod order;
mod outcome;
mod refusal;

pub use instruction::Instruction;
pub use order::{Cursor, KeySet, Order};
pub use outcome::Outcome;
pub use refusal::Refusal;
