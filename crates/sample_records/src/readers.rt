// The reader of each version by itself, on a record.
use crate::judged::judge_answer;
use host::files::bytes_of;
use host::records::RECORD_FILE;
use std::io;
use std::rt::Files;

pub fn print_readers(rt: &(impl Print + Files), name: &str) -> io::Result<()> {
    let mut bytes = [0u8; RECORD_FILE];
    let n = bytes_of(rt, name.as_bytes(), &mut bytes)?;
    let record = &bytes[..n];
    print!(rt; "{name} by the reader of version 1 ")?;
    judge_answer(rt, record::read_old(record), record)?;
    print!(rt; "{name} by that of version 2 alone ")?;
    judge_answer(rt, record::read_current(record), record)
}
