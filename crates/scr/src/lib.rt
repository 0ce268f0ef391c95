// Screen files, read into a bank and a state and written from them.
#![tactic(auto)]

mod reading;
mod writing;

pub use reading::{colours, read_scr, state_read};
pub use writing::{Written, write_judged, write_scr};
