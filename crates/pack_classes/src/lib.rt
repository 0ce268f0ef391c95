// The cells of a picture, which of them can be turned into each other, and a number that a cell keeps when it is turned: definitions
// and the laws of the eight turns. It has no code: `pack_cells`, `pack_turns` and the packing are proved against it.
#![tactic(auto)]
