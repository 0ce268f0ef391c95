// The tilemap's one rule: the index at a position of the surface, by its entry, its turn and its pixel. Every call here asks for a bank
// of 16,384 bytes, and for a setup or numbers within their bounds.
#![tactic(auto)]

mod rule;

pub use rule::{index_at, pixel_at};
