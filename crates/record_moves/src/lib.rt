// Records moved between versions: up, so that an old one has all that a new one has, and back, where nothing is lost by it.
#![tactic(auto)]

mod bytes;
mod moves;

pub use moves::{move_back, move_up};
