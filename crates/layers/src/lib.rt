// A line drawn with finished lines of Layer 2 and sprites: the refusals in their order, and the three layers by the order of $15.
#![tactic(auto)]

mod drawing;

pub use drawing::{draw_layers, early_reply};
