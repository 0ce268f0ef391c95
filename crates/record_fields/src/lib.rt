// What stands at a place of a record, for people: its name and its bound, by one table in the order of the layout.
#![tactic(auto)]

mod parts;
mod table;

pub use parts::part_at;
pub use table::{Fault, refused};
