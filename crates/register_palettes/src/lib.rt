// The four palettes, written and read through $40 to $44.
#![tactic(auto)]

mod colours;
mod control;

pub use colours::{read_eight, read_nine, write_eight, write_index, write_nine};
pub use control::{write_control, write_mask};
