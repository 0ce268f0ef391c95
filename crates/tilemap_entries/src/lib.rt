// The entry of a cell of the tilemap: where it is, its two bytes, and the number of its tile. Every call here asks for a bank of 16,384
// bytes, and for a setup or numbers within their bounds: those that draw or pack judge them first.
#![tactic(auto)]

mod entries;

pub use entries::{Entry, TileSetup, cell_of, down_map, entry_at, fetch, tile_number, wrapped};
