// The palette index that an attribute gives its ink and its paper, in plain colours, ULANext and ULAplus, and flash. Numbers only. A mask is
// asked for that a lawful state has: those that draw judge it first.
#![tactic(auto)]

mod index;

pub use index::{ink_index, is_paperless, is_swapped, paper_index};
