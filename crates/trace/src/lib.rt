// Drawing by a recorded trace of register and port writes: one line, or lines 0 to 255 with the state carried along.
#![tactic(auto)]

mod alone;
mod carried;
mod lines;

pub use alone::{Traced, draw_traced, draw_traced_as};
pub use carried::{draw_carried, draw_carried_as};
