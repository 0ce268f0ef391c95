// The calls for C, Rust and Python that change, move and read a record, and those on screen files: numbers and slices only, a state lent as its record. Each answers the
// reply's number.
#![tactic(auto)]

mod changes;
mod moves;
mod readings;
mod screens;

pub use changes::{
    narephon_next_frame, narephon_reset, narephon_write_port, narephon_write_register,
};
pub use moves::{narephon_move_back, narephon_move_up};
pub use readings::{narephon_check_record, narephon_read_port, narephon_read_register};
pub use screens::{narephon_read_scr, narephon_write_scr};
