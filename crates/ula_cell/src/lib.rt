// The dots of one cell of the display, before the clip: eight pixels of modes 0, 1 and 2, and eight dots of mode 6.
#![tactic(auto)]

mod cells;

pub use cells::{hires_cell, pixel_cell};
