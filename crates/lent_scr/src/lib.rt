// Screen files by a lent record: read into the state in the bytes lent, and written from it. Bytes that are no record are refused by 16,
// 17 or 18, which stand where 4 stands for a state.
#![tactic(auto)]

mod reading;
mod writing;

pub use reading::{ScreenRead, read_scr_record};
pub use writing::write_scr_record;
