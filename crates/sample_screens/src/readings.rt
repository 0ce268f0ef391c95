// A file read into a state and a bank, and written back.
use crate::tally::{kept, sum};
use host::marks::MARK;
use host::records::RECORD;
use state::State;
use std::io;

// What reading sets, and the sum of the record of all of it.
fn print_state(rt: &impl Print, s: State) -> io::Result<()> {
    let (u, p, o) = (s.ula, s.palette, s.ports);
    print!(rt;
        "  $15 {:02x}, $08 {:02x}, $43 {:02x}, $FF {:02x}",
        u.layers, u.peripheral, p.control, o.timex
    )?;
    let mut bytes = [0u8; RECORD];
    record::write_record(s, &mut bytes);
    println!(rt;
        ", ULAplus {}, record {:08x}",
        u8::from(o.plus),
        sum(&bytes)
    )
}

// Whether place i of a bank lies in a part of the file: one part in the short forms, two in the others.
fn is_named(short: bool, i: usize) -> bool {
    if short {
        i < 6912
    } else {
        (i < 6144) | (8192 <= i) & (i < 14336)
    }
}

// How many bytes of a bank changed, where the parts of the file are or elsewhere.
fn changed(before: &[u8; 16384], after: &[u8; 16384], short: bool, named: bool) -> usize {
    before
        .iter()
        .zip(after)
        .enumerate()
        .filter(|(i, (old, new))| (**old != **new) & (is_named(short, *i) == named))
        .count()
}

fn print_bank(
    rt: &impl Print,
    before: &[u8; 16384],
    after: &[u8; 16384],
    short: bool,
) -> io::Result<()> {
    let parts = changed(before, after, short, true);
    let elsewhere = changed(before, after, short, false);
    let sum = sum(after);
    println!(rt; "  bank: changed {parts} in its parts, {elsewhere} elsewhere, sum {sum:08x}")
}

fn print_target(rt: &impl Print, target: &[u8], n: usize, file: &[u8]) -> io::Result<()> {
    if n <= target.len() {
        let bytes = if &target[..n] == file {
            "the file's own"
        } else {
            "others"
        };
        print!(rt; ", {bytes}, the rest {}", kept(&target[n..]))?;
    }
    println!(rt; "")
}

fn print_written(rt: &impl Print, s: State, bank: &[u8], file: &[u8]) -> io::Result<()> {
    let mut target = [MARK; 12353];
    let w = scr::write_scr(s, bank, &mut target);
    let r = w.reply;
    let n = w.length;
    print!(rt; "  written back: {}, bytes {n}", u8::from(r))?;
    print_target(rt, &target, n, file)
}

// Where the colours are in the file.
fn print_place(rt: &impl Print, lent: &[u8], file: &[u8]) -> io::Result<()> {
    if lent.len() <= file.len() {
        let at = file.len() - lent.len();
        print!(rt; " from {at}")?;
        if lent == &file[at..] {
            print!(rt; ", the file's own")?;
        }
    }
    Ok(())
}

fn print_colours(rt: &impl Print, s: State, bank: &[u8], file: &[u8]) -> io::Result<()> {
    let lent = scr::colours(s, bank, file);
    print!(rt; "  colours: {}", lent.len())?;
    if lent.len() != 0 {
        print_place(rt, lent, file)?;
    }
    println!(rt; "")
}

fn print_reading(
    rt: &impl Print,
    label: &str,
    file: &[u8],
    s: State,
    before: [u8; 16384],
) -> io::Result<()> {
    let mut bank = before;
    let a = scr::read_scr(s, &mut bank, file);
    let r = a.reply;
    println!(rt; " into {label}: {}", u8::from(r))?;
    let t = a.state;
    print_state(rt, t)?;
    print_bank(rt, &before, &bank, file.len() < 12288)?;
    print_written(rt, t, &bank, file)?;
    print_colours(rt, s, &before, file)
}

// The bank that a file makes of an empty one, complemented, so that each byte that is read changes.
fn marked_bank(file: &[u8]) -> [u8; 16384] {
    let mut bank = [0u8; 16384];
    scr::read_scr(state::reset(), &mut bank, file);
    for byte in &mut bank {
        *byte = !*byte;
    }
    bank
}

pub fn print_reset(rt: &impl Print, file: &[u8]) -> io::Result<()> {
    print_reading(rt, "reset", file, state::reset(), [0u8; 16384])
}

pub fn print_marked(rt: &impl Print, file: &[u8], s: State) -> io::Result<()> {
    print_reading(rt, "marked", file, s, marked_bank(file))
}
