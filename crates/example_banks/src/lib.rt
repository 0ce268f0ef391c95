// The two banks of the example screen, byte by byte: a triangle in every cell with an attribute of its own, and a map of letters.
#![tactic(auto)]

mod banks;

pub use banks::{example_tiles, example_ula};
