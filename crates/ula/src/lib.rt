// The ULA's 640 dots of a line: what the line shows of the state, the display, and the border around it.
// A row asks for a mask and a border that a lawful state has, a line, and lengths: those that draw judge them first.
#![tactic(auto)]

mod rows;

pub use rows::ula_row;
