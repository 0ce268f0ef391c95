// The three stages by which bytes are judged as a record: the number of bytes following, the version, the fields. No state is made.
#![tactic(auto)]

mod stages;

pub use stages::{judge, reply_as};
