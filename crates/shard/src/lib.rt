// One house of sixteen: its ledger, and which looks and writes may be done now.
#![tactic(auto)]

mod house;
mod task;

pub use house::{House, Went};
pub use task::Task;
