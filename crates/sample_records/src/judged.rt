// Bytes that are read as a record and written back.
use host::files::read_file;
use host::records::{OLD_RECORD, RECORD, RECORD_FILE};
use record_layout::RecordRead;
use state::State;
use std::io;
use std::rt::Files;

// Whether the record of a state is these bytes; those of an old record, once it is moved back.
fn written_as(s: State, bytes: &[u8]) -> bool {
    let mut back = [0u8; RECORD];
    record::write_record(s, &mut back);
    if bytes.len() == OLD_RECORD {
        let mut old = [0u8; OLD_RECORD];
        record_moves::move_back(&back, &mut old);
        old.as_slice() == bytes
    } else {
        back.as_slice() == bytes
    }
}

// Whether writing gives the same bytes, or whether a refusal gives the reset state.
fn outcome(a: RecordRead, bytes: &[u8]) -> &'static str {
    if a.reply.is_done() {
        if written_as(a.state, bytes) {
            "same"
        } else {
            "different"
        }
    } else {
        let mut plain = [0u8; RECORD];
        record::write_record(state::reset(), &mut plain);
        if written_as(a.state, &plain) {
            "reset"
        } else {
            "not reset"
        }
    }
}

// A reading's reply, place and outcome.
pub fn judge_answer(rt: &impl Print, a: RecordRead, bytes: &[u8]) -> io::Result<()> {
    let number = u8::from(a.reply);
    println!(rt; "{number} at {} {}", a.place, outcome(a, bytes))
}

// The first n of the bytes.
pub fn judge_first(rt: &impl Print, bytes: &[u8], n: usize) -> io::Result<()> {
    if let Some(record) = bytes.get(..n) {
        judge_answer(rt, record::read_record(record), record)?;
    }
    Ok(())
}

// A file of the data folder; one that is longer than a record shows as one byte too many. Its name is written before the read, which can fail.
pub fn print_file(rt: &(impl Print + Files), name: &str) -> io::Result<()> {
    print!(rt; "{name}")?;
    let mut bytes = [0u8; RECORD_FILE];
    match read_file(rt, name.as_bytes(), &mut bytes)? {
        Some(n) => {
            print!(rt; " ")?;
            judge_first(rt, &bytes, n)
        }
        None => println!(rt; " missing"),
    }
}
