// The tilemap's layer of a line: its dots composed with the ULA's. Every call here asks for a bank and a line of their lengths and for
// what a lawful state keeps: those that draw judge them first.
#![tactic(auto)]

mod compose;
mod tiles;

pub use tiles::tiles_over;
