// The bytes, the pixels and the mark of a cell. Every call here asks for a picture of 40,960 bytes and for a cell below 1,280, or for
// an unpacked cell of 64 pixels: packing judges the picture first.
#![tactic(auto)]

mod marks;
mod pixels;

pub use marks::mark;
pub use pixels::{cell_bytes, unpack};
