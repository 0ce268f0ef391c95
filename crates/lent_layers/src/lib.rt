// Drawing with lent lines of Layer 2 and sprites from a lent record. Bytes that are no record are refused by 16, 17 or 18, which stand
// where 4 stands for a state.
#![tactic(auto)]

mod drawing;

pub use drawing::draw_layers_record;
