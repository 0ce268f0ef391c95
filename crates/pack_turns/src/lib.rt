// The turn that makes one cell into another. Every call here asks for unpacked cells of 64 pixels, and for the transpose and the marks
// that go with them.
#![tactic(auto)]

mod turns;

pub use turns::{transpose, turn_marked};
