// Rows of dots, of any layer: painted with one dot, and cut to a clip.
#![tactic(auto)]

mod rows;

pub use rows::{clip_dots, paint};
