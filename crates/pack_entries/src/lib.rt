// Packing a picture's cells in their order: each becomes an entry of the map, and some a definition. It asks for a picture and for
// buffers of their lengths, and for numbers in order: packing judges them first.
#![tactic(auto)]

mod entries;

pub use entries::pack_cells;
