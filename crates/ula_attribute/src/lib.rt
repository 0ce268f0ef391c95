// What colour an attribute gives: the dots of its two bits, and the border's, from their indices and the colours. Every call here that asks
// for a mask or a border asks for what a lawful state has: those that draw judge it first.
#![tactic(auto)]

mod colours;

pub use colours::{Dots, bit_dots, border_dot};
