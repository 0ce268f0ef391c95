// What reading and writing a screen file are refused for: the pieces, each with its definition, and their order.
#![tactic(auto)]

mod judging;

pub use judging::{read_reply, write_reply};
