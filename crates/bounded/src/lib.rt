// A list of at most so many items, kept in place.
#![tactic(auto)]

mod bounded;
mod compare;

pub use bounded::Bounded;
