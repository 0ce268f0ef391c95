// The dots of a line: the ULA's and a tile's composed, transparent tile pixels, stencil, and the fallback where nothing shows.
#![tactic(auto)]

mod dots;

pub use dots::{composed_dot, finish_line, stencil_on, unless_transparent};
