// A line of the ULA's display: its 512 dots by mode, from the cells of a row or from LoRes's columns, within the clip.
#![tactic(auto)]

mod rows;

pub use rows::display_row;
