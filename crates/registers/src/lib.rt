// The calls by which a member's state is written and read, by register number and by port.
#![tactic(auto)]

mod port;
mod read;
mod write;

pub use port::{read_port, write_port};
pub use read::read_register;
pub use write::write_register;
