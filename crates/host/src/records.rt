// How long buffers for records are. An array is as long as a constant says, not a function, so the lengths stand here again; sample_records
// prints which of them `record` takes.

// A record of version 1, and one of version 2, which is what is written.
pub const OLD_RECORD: usize = 2150;

pub const RECORD: usize = 2152;

// A file of either version is read into one byte more than the longer has, where a longer file shows.
pub const RECORD_FILE: usize = RECORD + 1;
