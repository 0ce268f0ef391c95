// The mode that the ULA draws in: LoRes, a Timex mode, or none.
#![tactic(auto)]

mod modes;

pub use modes::{Mode, mode_of};
