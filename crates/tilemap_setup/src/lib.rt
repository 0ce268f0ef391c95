// What of the state a line of the tilemap shows: how the map lies, and which of its pixels the clip lets through.
#![tactic(auto)]

mod setup;

pub use setup::{PairCount, Window, setup_of, window_of};
