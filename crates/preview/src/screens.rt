// A screen file, in the standard colours or in a member's state.
use crate::output;
use crate::output::{NO_ENTRIES, Scene};
use host::complaints::Complaints;
use host::files::read_argument;
use host::records::RECORD_FILE;
use record_fields::Fault;
use state::State;
use std::io;
use std::rt::{Env, Files};

const SCREEN: usize = 12354;

// The bank is 0 where the file does not fill it, and serves as ULA bank and tile bank.
fn draw_file<E: Print>(
    rt: &impl Print,
    complaints: &Complaints<E>,
    s: State,
    file: &[u8],
) -> io::Result<()> {
    let mut bank = [0u8; 16384];
    let a = scr::read_scr(s, &mut bank, file);
    let r = a.reply;
    if !r.is_done() {
        return complaints.refused(r);
    }
    let scene = Scene {
        state: a.state,
        ula: &bank,
        tile: &bank,
        trace: &NO_ENTRIES,
    };
    output::show(rt, complaints, &scene)
}

// The screen file that argument i names, in a state.
fn load_file<E: Print>(
    rt: &(impl Print + Env + Files),
    complaints: &Complaints<E>,
    i: usize,
    s: State,
) -> io::Result<()> {
    let mut file = [0u8; SCREEN];
    match read_argument(rt, complaints, i, &mut file)? {
        Some(n) => draw_file(rt, complaints, s, &file[..n]),
        None => Ok(()),
    }
}

pub fn draw_standard<E: Print>(
    rt: &(impl Print + Env + Files),
    complaints: &Complaints<E>,
) -> io::Result<()> {
    load_file(rt, complaints, 1, spectrum_colours::standard_state())
}

// The record that the first argument names gives the state.
pub fn draw_with<E: Print>(
    rt: &(impl Print + Env + Files),
    complaints: &Complaints<E>,
) -> io::Result<()> {
    let mut record = [0u8; RECORD_FILE];
    let Some(n) = read_argument(rt, complaints, 1, &mut record)? else {
        return Ok(());
    };
    let read = record::read_record(&record[..n]);
    let reply = read.reply;
    if !reply.is_done() {
        let fault = Fault {
            reply,
            place: read.place,
            length: n,
        };
        return record_fields::refused(complaints, fault);
    }
    load_file(rt, complaints, 2, read.state)
}
