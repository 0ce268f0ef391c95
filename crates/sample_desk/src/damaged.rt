// A byte of a desk changed, a call that is refused for it, and the byte put back.
use crate::asked::{ask, open};
use std::io;

fn ask_with(rt: &impl Print, desk: &mut [u8], at: usize, value: u8) -> io::Result<()> {
    if at < desk.len() {
        let kept = desk[at];
        desk[at] = value;
        ask(rt, desk, 263, 0x14)?;
        desk[at] = kept;
    }
    Ok(())
}

// Seat 0 is number 0's, seat 1 is 263's and seat 2 is 7's.
pub fn print_damaged(rt: &impl Print, desk: &mut [u8]) -> io::Result<()> {
    // held by 2, and by 0 with its record left
    ask_with(rt, desk, 0, 2)?;
    ask_with(rt, desk, 0, 0)?;
    // the low byte of 0's number: two seats are 7's
    ask_with(rt, desk, 2, 7)?;
    // its version, and its border
    ask_with(rt, desk, 5, 1)?;
    ask_with(rt, desk, 38, 8)?;
    // the last byte of the last seat, which is free
    ask_with(rt, desk, 34479, 1)?;
    ask(rt, desk, 263, 0x14)
}

fn damage(desk: &mut [u8], at: usize, value: u8) {
    if at < desk.len() {
        desk[at] = value;
    }
}

// 21 before 23, 22 and 24: the desk is full, 263 has a seat and 9 has none. Its first seat is left held by 2.
pub fn print_before(rt: &impl Print, desk: &mut [u8]) -> io::Result<()> {
    damage(desk, 0, 2);
    ask(rt, desk, 9, 0x14)?;
    open(rt, desk, 263)?;
    open(rt, desk, 9)
}
