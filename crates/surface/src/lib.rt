// What is drawn: the lines of the surface and the dots of a line, before any layer.
#![tactic(auto)]

mod dots;
mod lines;

pub use dots::{is_inside, show, top_dot};
pub use lines::{LineNumber, display_line, in_display, is_line};
