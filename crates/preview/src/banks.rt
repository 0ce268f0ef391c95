// A record and two banks, and a trace where a fourth name is given.
use crate::output;
use crate::output::{NO_ENTRIES, Scene};
use host::complaints::Complaints;
use host::files::read_argument;
use host::records::RECORD_FILE;
use record_fields::Fault;
use std::io;
use std::rt::{Env, Files};

// A buffer is one byte longer than its file must be, so that a longer file shows; of a trace, than it can be.
const BANK: usize = 16385;

const TRACE: usize = 65538;

fn draw_record<E: Print>(
    rt: &impl Print,
    complaints: &Complaints<E>,
    record: &[u8],
    ula: &[u8],
    tile: &[u8],
    trace: &[u8],
) -> io::Result<()> {
    let read = record::read_record(record);
    let reply = read.reply;
    if !reply.is_done() {
        let fault = Fault {
            reply,
            place: read.place,
            length: record.len(),
        };
        return record_fields::refused(complaints, fault);
    }
    let scene = Scene {
        state: read.state,
        ula,
        tile,
        trace,
    };
    output::show(rt, complaints, &scene)
}

// What the arguments name; a trace without entries stands in for one that is not named.
pub fn draw<E: Print>(
    rt: &(impl Print + Env + Files),
    complaints: &Complaints<E>,
    traced: bool,
) -> io::Result<()> {
    let mut record = [0u8; RECORD_FILE];
    let Some(r) = read_argument(rt, complaints, 1, &mut record)? else {
        return Ok(());
    };
    let mut ula = [0u8; BANK];
    let Some(u) = read_argument(rt, complaints, 2, &mut ula)? else {
        return Ok(());
    };
    let mut tile = [0u8; BANK];
    let Some(t) = read_argument(rt, complaints, 3, &mut tile)? else {
        return Ok(());
    };
    let (record, ula, tile) = (&record[..r], &ula[..u], &tile[..t]);
    if !traced {
        return draw_record(rt, complaints, record, ula, tile, &NO_ENTRIES);
    }
    let mut trace = [0u8; TRACE];
    match read_argument(rt, complaints, 4, &mut trace)? {
        Some(n) => draw_record(rt, complaints, record, ula, tile, &trace[..n]),
        None => Ok(()),
    }
}
