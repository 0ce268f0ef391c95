// Which definition draws a cell: a search among the cells listed so far, and one more listed. Both ask for what the
// packing of the cells keeps.
#![tactic(auto)]

mod search;

pub use search::{Match, Table};
