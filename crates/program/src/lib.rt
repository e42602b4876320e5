// What the programs share: why one stops, how it ends, and how it reads a file.
#![tactic(auto)]

mod failure;
mod files;

pub use failure::{Failure, end};
pub use files::{feed, read};
