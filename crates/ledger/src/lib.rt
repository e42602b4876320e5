// What one house has and knows: the log, its values, its journal and what it was told; and its part of each order, done when it may.
#![tactic(auto)]

mod ledger;
mod note;
mod owner;
mod refusal;
mod values;

pub use ledger::Ledger;
pub use note::Note;
pub use refusal::Refusal;
