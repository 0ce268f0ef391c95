// A recorded trace of register and port writes: its entries, and what it is refused for.
#![tactic(auto)]

mod entries;
mod judge;

pub use entries::{Entry, entry_at, entry_count};
pub use judge::trace_reply;
