// A screen to look at: a state made by register writes, and two banks. Mode 0 shows every ink on every paper, plain and
// bright, within a blue border; over it a letter F in each of the eight turns, in a colour of its own.
#![tactic(auto)]

mod registers_set;

pub use example_banks::{example_tiles, example_ula};
pub use registers_set::example_state;
