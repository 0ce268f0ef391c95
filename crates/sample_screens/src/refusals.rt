// What is refused, one at a time and in its order; what is taken stands between.
use crate::tally::kept;
use host::marks::MARK;
use state::State;
use std::io;

// The reset state with a border, which from 8 on is not lawful.
fn bordered(border: u8) -> State {
    let mut s = state::reset();
    s.ports.border = border;
    s
}

// $08 is 0 where the state is as it was.
fn print_read(
    rt: &impl Print,
    label: &str,
    s: State,
    bank: &mut [u8],
    file: &[u8],
) -> io::Result<()> {
    let a = scr::read_scr(s, bank, file);
    let r = a.reply;
    let peripheral = a.state.ula.peripheral;
    let kept = kept(bank);
    let colours = scr::colours(s, bank, file).len();
    let (length, number) = (file.len(), u8::from(r));
    println!(rt;
        "{label}length {length}: {number}, $08 {peripheral}, bank {kept}, colours {colours}"
    )
}

// The first bytes of a file that is 6 everywhere but at the port byte's place, read into the first bytes of a bank: no row asks for
// more than there are.
fn read(
    rt: &impl Print,
    label: &str,
    length: usize,
    port: u8,
    room: usize,
    border: u8,
) -> io::Result<()> {
    let mut file = [6u8; 12354];
    file[12288] = port;
    let mut bank = [MARK; 16385];
    match (bank.get_mut(..room), file.get(..length)) {
        (Some(bank), Some(file)) => print_read(rt, label, bordered(border), bank, file),
        _ => Ok(()),
    }
}

pub fn print_lengths(rt: &impl Print) -> io::Result<()> {
    for length in [
        0, 6911, 6912, 6913, 6975, 6976, 6977, 12287, 12288, 12289, 12290, 12351, 12352, 12353,
        12354,
    ] {
        read(rt, "", length, 6, 16384, 0)?;
    }
    Ok(())
}

pub fn print_ports(rt: &impl Print) -> io::Result<()> {
    for (label, length, port) in [
        ("port byte 5, ", 12289, 5),
        ("port byte $25, ", 12289, 0x25),
        ("port byte $26, ", 12289, 0x26),
        ("port byte 5, ", 12353, 5),
        ("port byte $25, ", 12353, 0x25),
        ("port byte $26, ", 12353, 0x26),
    ] {
        read(rt, label, length, port, 16384, 0)?;
    }
    Ok(())
}

pub fn print_read_order(rt: &impl Print) -> io::Result<()> {
    for (label, length, port, room, border) in [
        ("bank 16383, ", 6912, 6, 16383, 0),
        ("bank 16385, ", 6976, 6, 16385, 0),
        ("bank 0, ", 12353, 6, 0, 0),
        ("border 8, ", 6912, 6, 16384, 8),
        ("2 before 4, ", 6912, 6, 16383, 8),
        ("2 before 14, ", 6913, 6, 16383, 0),
        ("4 before 14, ", 6913, 6, 16384, 8),
        ("4 before 14 of the port byte, ", 12289, 5, 16384, 8),
    ] {
        read(rt, label, length, port, room, border)?;
    }
    Ok(())
}

fn print_write(
    rt: &impl Print,
    label: &str,
    s: State,
    bank: &[u8],
    target: &mut [u8],
) -> io::Result<()> {
    let w = scr::write_scr(s, bank, target);
    let r = w.reply;
    let length = w.length;
    println!(rt;
        "{label}: {}, bytes {length}, target {}",
        u8::from(r),
        kept(target)
    )
}

// The first bytes of a bank that is 6 everywhere, written into the first bytes of a target: no row asks for more than there are.
fn write(rt: &impl Print, label: &str, s: State, from: usize, room: usize) -> io::Result<()> {
    let bank = [6u8; 16385];
    let mut target = [MARK; 12354];
    match (bank.get(..from), target.get_mut(..room)) {
        (Some(bank), Some(target)) => print_write(rt, label, s, bank, target),
        _ => Ok(()),
    }
}

// Mode 2 with ULANext on, the ULA off and offsets, none of which matters.
fn write_ignoring(rt: &impl Print) -> io::Result<()> {
    let mut s = state::reset();
    s.ula.peripheral = 4;
    s.ports.timex = 2;
    s.palette.control = 1;
    s.ula.control = 0x80;
    s.ula.x = 9;
    s.ula.y = 100;
    write(rt, "mode 2, the ULA off", s, 16384, 12353)
}

// The reset state with other values of $15, $08 and port $FF.
pub fn print_modes(rt: &impl Print) -> io::Result<()> {
    for (label, layers, peripheral, timex) in [
        ("mode 0", 0, 4, 0x38),
        ("mode 1", 0, 4, 1),
        ("mode 2", 0, 4, 2),
        ("no mode 3", 0, 4, 3),
        ("no mode 4", 0, 4, 4),
        ("no mode 5", 0, 4, 5),
        ("mode 6", 0, 4, 0x3E),
        ("no mode 7", 0, 4, 7),
        ("Timex modes off", 0, 0xFB, 7),
        ("LoRes", 0x80, 0, 0),
        ("LoRes over mode 2", 0x80, 4, 2),
    ] {
        let mut s = state::reset();
        s.ula.layers = layers;
        s.ula.peripheral = peripheral;
        s.ports.timex = timex;
        write(rt, label, s, 16384, 12353)?;
    }
    write_ignoring(rt)
}

// A state by port $FF, whose mode 1 has no form, and the border, with bank and target of these lengths.
pub fn print_write_order(rt: &impl Print) -> io::Result<()> {
    for (label, from, room, timex, border) in [
        ("bank 16383", 16383, 12353, 0, 0),
        ("bank 16385", 16385, 12353, 0, 0),
        ("target 12352", 16384, 12352, 0, 0),
        ("target 12354", 16384, 12354, 0, 0),
        ("border 8", 16384, 12353, 0, 8),
        ("2 before 3", 16383, 12352, 0, 0),
        ("2 before 4", 16383, 12353, 0, 8),
        ("2 before 14", 16383, 12353, 1, 0),
        ("3 before 4", 16384, 6912, 0, 8),
        ("3 before 14", 16384, 0, 1, 0),
        ("4 before 14", 16384, 12353, 1, 8),
    ] {
        let mut s = bordered(border);
        s.ula.peripheral = 4;
        s.ports.timex = timex;
        write(rt, label, s, from, room)?;
    }
    Ok(())
}
