// The desk for a bot: the states of sixteen members in one lent buffer, each under the member's number. Every call says what the
// whole buffer holds afterwards.
#![tactic(auto)]

mod calls;
mod seating;

pub use calls::{change, draw, query};
pub use desk_places::start;
pub use seating::{close, open};
