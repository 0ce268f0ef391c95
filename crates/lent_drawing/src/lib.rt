// Drawing from a lent record: a line of the state in the bytes lent, or the reply that refuses it. Bytes that are no record are
// refused by 16, 17 or 18, which stand where 4 stands for a state.
#![tactic(auto)]

mod drawing;

pub use drawing::{composed_record, draw_record, state_judged};
