// Writing the parts of a packing: an entry of the map, and the definitions. Both ask for what the packing of the cells has established.
#![tactic(auto)]

mod definitions;
mod entry;

pub use definitions::write_definitions;
pub use entry::put_entry;
