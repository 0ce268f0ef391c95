// The parts of a bank that a form names, filled from a screen file and put into one.
#![tactic(auto)]

mod parts;

pub use parts::{fill, put_parts};
