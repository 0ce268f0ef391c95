// Calls on a desk, and their answers printed.
use lent::{Change, Query};
use reply::{Reply, reply_of};
use std::io;
use surface::LineNumber;

fn print_line(rt: &impl Print, label: &str, member: u16, r: Reply) -> io::Result<()> {
    println!(rt; "{member} {label}: {}", u8::from(r))
}

fn print_value(rt: &impl Print, label: &str, member: u16, r: Reply, n: u16) -> io::Result<()> {
    println!(rt; "{member} {label}: {} {n}", u8::from(r))
}

pub fn start(rt: &impl Print, desk: &mut [u8]) -> io::Result<()> {
    println!(rt; "start: {}", u8::from(desk::start(desk)))
}

pub fn open(rt: &impl Print, desk: &mut [u8], member: u16) -> io::Result<()> {
    print_line(rt, "opens", member, desk::open(desk, member))
}

pub fn close(rt: &impl Print, desk: &mut [u8], member: u16) -> io::Result<()> {
    print_line(rt, "closes", member, desk::close(desk, member))
}

pub fn write(
    rt: &impl Print,
    desk: &mut [u8],
    member: u16,
    register: u8,
    value: u8,
) -> io::Result<()> {
    let r = desk::change(desk, member, Change::Register(register, value));
    print_line(rt, "writes", member, r)
}

pub fn ask(rt: &impl Print, desk: &[u8], member: u16, register: u8) -> io::Result<()> {
    let got = desk::query(desk, member, Query::Register(register));
    let value = u16::from(got.unwrap_or(0));
    print_value(rt, "reads", member, reply_of(got), value)
}

// The nine bits of the member's colour 0, by $41 and $44.
pub fn colour(rt: &impl Print, desk: &mut [u8], member: u16) -> io::Result<()> {
    let r = desk::change(desk, member, Change::Register(0x40, 0));
    let high = desk::query(desk, member, Query::Register(0x41));
    let low = desk::query(desk, member, Query::Register(0x44));
    let n = u16::from(high.unwrap_or(0)) * 2 + u16::from(low.unwrap_or(0));
    print_value(rt, "has the colour", member, r, n)
}

// The line's first dot, 65535 where it is as it was.
pub fn draw(rt: &impl Print, desk: &[u8], member: u16, line: usize) -> io::Result<()> {
    let bank = [0u8; 16384];
    let mut dots = [65535u16; 640];
    let r = desk::draw(desk, member, &bank, &bank, LineNumber(line), &mut dots);
    print_value(rt, "draws", member, r, dots[0])
}

// Numbers whose low byte is 1 open seats.
pub fn open_row(rt: &impl Print, desk: &mut [u8], n: u8) -> io::Result<()> {
    for k in 0..n {
        open(rt, desk, u16::from(k) * 256 + 1)?;
    }
    Ok(())
}
