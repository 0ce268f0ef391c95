// The seats of a desk together: whether the desk is well formed, and where a call of a member goes or what refuses it.
#![tactic(auto)]

mod desks;
mod places;
mod search;

pub use desks::start;
pub use places::{find, find_free};
