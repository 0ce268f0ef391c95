// Nine-bit colours RRRGGGBBB: from a byte, from a ULAplus byte, and as a value of 24 bits for a screen.
#![tactic(auto)]

mod bytes;
mod screen;
mod table;

pub use bytes::{plus_colour, widen};
pub use screen::screen_value;
