// The dots of the lent layers with those of a composed line: what a lent line may hold, the six orders, priority.
#![tactic(auto)]

mod dots;
mod lines;
mod numbers;

pub use lines::lay_layers;
pub use numbers::{layers_reply, lent_reply};
