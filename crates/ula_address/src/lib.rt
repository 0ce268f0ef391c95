// Which bytes of its bank the ULA reads in each mode: the address of a column of a row, and what holds of all addresses.
#![tactic(auto)]

mod addresses;

pub use addresses::{attribute_address, bitmap_address};
