// Which pixel of a definition a place of a cell shows under one of the eight turns, and which half of a byte that pixel is. It has no
// bank: drawing and packing both go by it.
#![tactic(auto)]

mod turns;

pub use turns::{Spot, half, mirror, turned};
