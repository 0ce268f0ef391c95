// What a line shows of the state, read once a line: the palette, which bytes of the bank, the clip, the colours and the border's dot.
// A mask, a border and a line are asked for that a lawful state has: those that draw judge them first.
#![tactic(auto)]

mod views;

pub use views::{UlaLine, View, ula_line, ula_palette};
