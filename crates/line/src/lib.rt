// The log: its bytes, how it grows, and what doing its orders one after the other leaves.
#![tactic(auto)]

mod frames;
mod log;
mod serial;
mod store;

pub use frames::Frames;
pub use log::{Log, LogError};
pub use serial::Execution;
pub use store::Store;
