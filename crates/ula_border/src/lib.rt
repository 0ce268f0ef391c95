// The palette index of the border, from port $FE or in mode 6 from the paper. Numbers only. A mask and a border are asked for that a lawful
// state has: those that draw judge them first.
#![tactic(auto)]

mod border;

pub use border::{border_index, border_number, hires_border_index};
