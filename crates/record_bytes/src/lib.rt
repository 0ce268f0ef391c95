// A state's registers as the bytes of a record: those before the clips, and those after them.
#![tactic(auto)]

mod registers;

pub use registers::{after_clips, before_clips};
