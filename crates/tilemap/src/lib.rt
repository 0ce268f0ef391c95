// The tilemap's dots, and the row of a line. Its call asks for a bank of 16,384 bytes and for a setup and a table within their bounds:
// those that draw judge them first.
#![tactic(auto)]

mod cells;

pub use cells::tile_row;
