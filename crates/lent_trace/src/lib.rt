// Drawing by a trace from a lent record: the record is read once, and its bytes stay. Bytes that are no record are refused by 16, 17 or 18,
// which stand where 4 stands for a state.
#![tactic(auto)]

mod drawing;

pub use drawing::{draw_carried_record, draw_traced_record};
