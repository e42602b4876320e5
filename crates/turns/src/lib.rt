// Whose turn it is in a house: for each of its keys the queue of the undone orders that touch it.
#![tactic(auto)]

mod entry;
mod error;
mod keys;
mod places;
mod queue;
mod queues;
mod turns;

pub use entry::Mark;
pub use error::TurnsError;
pub use keys::{KEYS, slot};
pub use turns::Turns;
