// Calls on a lent record: each reads the state in the bytes lent, does what the call on a state does, and puts the record of the
// new state in the place of the old one. Bytes that are no record are refused by 16, 17 or 18, which stand where 4
// stands for a state.
#![tactic(auto)]

mod changes;
mod queries;

pub use changes::{Change, change_record, reset_record};
pub use lent_drawing::draw_record;
pub use queries::{Query, query_record};
