// What a drawing is refused for: the pieces, each with its definition, and their order.
#![tactic(auto)]

mod replies;

pub use replies::{lengths_reply, line_reply, state_reply};
