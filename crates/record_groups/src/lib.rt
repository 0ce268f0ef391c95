// The registers of the state in a record, read where they stand: group by group, the clips and the ULAplus registers. Every call
// here asks for bytes that reach as far as what it reads.
#![tactic(auto)]

mod groups;
mod rows;

pub use groups::{frame_at, palette_at, ports_at, tiles_at, turns_at, ula_at};
pub use rows::{plus_at, tile_clip_at, ula_clip_at};
