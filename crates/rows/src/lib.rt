// Rows of items, one after the other in one block of memory: a list of short lists that costs no allocation for each.
#![tactic(auto)]

mod table;

pub use table::Rows;
