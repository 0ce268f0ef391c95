// The stored record: a lawful state as bytes, and back.
#![tactic(auto)]

mod reading;
mod writing;

pub use reading::{judge_record, read_current, read_old, read_record};
pub use record_stages::{judge, reply_as};
pub use writing::write_record;
