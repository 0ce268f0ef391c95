// Lists that several crates speak of, with their laws; bytes put into a buffer, and a buffer made all 0.
#![tactic(auto)]

mod placing;

pub use placing::{put, zero};
