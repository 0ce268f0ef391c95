// The whole of a stored record: a state's bytes put into their places, and the state taken out of them. Every call here asks for as
// many bytes as a record has: `record` judges their number first.
#![tactic(auto)]

mod reading;
mod writing;

pub use reading::state_at;
pub use writing::put_record;
