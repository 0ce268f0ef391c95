// One byte changed at a time: each bound at its edge and one past it; then records that are too short or too long. Places
// are worked out by hand, and not taken from the code that is tried.
use crate::judged::judge_first;
use host::files::{bytes_of, read_file};
use host::records::RECORD_FILE;
use std::io;
use std::rt::Files;

// A place and a byte of the old record in which a half is held: the head, the tiles, the ports and the tables.
const HELD: [(usize, u8); 39] = [
    (0, 9),
    (1, 102),
    (2, 0),
    (2, 2),
    (3, 255),
    (6, 16),
    (6, 64),
    (8, 5),
    (8, 255),
    (10, 15),
    (10, 16),
    (11, 2),
    (11, 65),
    (12, 1),
    (14, 4),
    (17, 63),
    (17, 64),
    (18, 64),
    (20, 191),
    (20, 192),
    (29, 3),
    (29, 4),
    (30, 4),
    (31, 0),
    (31, 2),
    (32, 0),
    (33, 7),
    (33, 8),
    (35, 127),
    (35, 128),
    (36, 1),
    (36, 2),
    (37, 255),
    (101, 255),
    (102, 1),
    (102, 2),
    (2148, 1),
    (2148, 2),
    (2149, 255),
];

// The same of the old record in which none is.
const NONE_HELD: [(usize, u8); 5] = [(31, 1), (31, 2), (32, 1), (36, 0), (36, 2)];

// The same of the first in version 2: from the head to the first clip, what stands two places further back there, and the tables.
const CURRENT: [(usize, u8); 23] = [
    (1, 100),
    (2, 1),
    (2, 3),
    (20, 191),
    (20, 192),
    (21, 255),
    (22, 191),
    (22, 192),
    (23, 255),
    (31, 3),
    (31, 4),
    (32, 4),
    (33, 0),
    (35, 7),
    (35, 8),
    (37, 128),
    (38, 2),
    (103, 255),
    (104, 1),
    (104, 2),
    (2150, 1),
    (2150, 2),
    (2151, 255),
];

// The record of a name with each byte changed in turn.
fn print_damages(rt: &(impl Print + Files), name: &str, damages: &[(usize, u8)]) -> io::Result<()> {
    for (place, byte) in damages {
        let mut bytes = [0u8; RECORD_FILE];
        let n = bytes_of(rt, name.as_bytes(), &mut bytes)?;
        if let Some(changed) = bytes.get_mut(*place) {
            *changed = *byte;
        }
        print!(rt; "{name} place {place} byte {byte}: ")?;
        judge_first(rt, &bytes, n)?;
    }
    Ok(())
}

// The first bytes of a record, as many as each length says, with bytes 0 after it.
fn print_lengths(rt: &(impl Print + Files), name: &str, lengths: &[usize]) -> io::Result<()> {
    for length in lengths {
        let mut bytes = [0u8; RECORD_FILE];
        read_file(rt, name.as_bytes(), &mut bytes)?;
        print!(rt; "{name} length {length}: ")?;
        judge_first(rt, &bytes, *length)?;
    }
    Ok(())
}

pub fn print_damaged(rt: &(impl Print + Files)) -> io::Result<()> {
    print_damages(rt, "own1.rec", &HELD)?;
    print_damages(rt, "own2.rec", &NONE_HELD)?;
    print_damages(rt, "own3.rec", &CURRENT)?;
    print_lengths(rt, "own1.rec", &[0, 1, 2, 3, 2149, 2150, 2151, 2152])?;
    print_lengths(rt, "own3.rec", &[3, 2150, 2151, 2152, 2153])
}
