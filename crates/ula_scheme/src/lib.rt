// Which of the three rules colours a line, plain colours, ULANext or ULAplus, and the numbers of a state that it goes by. A mask is asked for
// that a lawful state has: those that draw judge it first.
#![tactic(auto)]

mod schemes;

pub use schemes::{Colours, Scheme, colours_of};
