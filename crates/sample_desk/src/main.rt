// A desk call by call: two members whose numbers have the same low byte each send half a colour and then the other half; what is refused,
// and before what; a full desk; and desks that are not well formed. After a reply stands what was read or drawn.
#![tactic(auto)]

mod asked;
mod damaged;

use asked::{ask, close, colour, draw, open, open_row, start, write};
use std::io;

// Members 7 and 263 are both called Rufus.
fn print_story(rt: &impl Print, desk: &mut [u8]) -> io::Result<()> {
    open(rt, desk, 7)?;
    open(rt, desk, 263)?;
    write(rt, desk, 7, 0x44, 0xE3)?;
    write(rt, desk, 263, 0x44, 0x1C)?;
    write(rt, desk, 263, 0x44, 1)?;
    write(rt, desk, 7, 0x44, 0)?;
    colour(rt, desk, 7)?;
    colour(rt, desk, 263)
}

// What is refused, and before what. 7 has the first seat and 263 the second.
fn print_refusals(rt: &impl Print, desk: &mut [u8]) -> io::Result<()> {
    open(rt, desk, 7)?;
    ask(rt, desk, 9, 0x14)?;
    close(rt, desk, 9)?;
    write(rt, desk, 9, 0x42, 5)?;
    write(rt, desk, 263, 0x42, 5)?;
    write(rt, desk, 263, 0x01, 5)?;
    draw(rt, desk, 9, 256)?;
    draw(rt, desk, 7, 256)?;
    draw(rt, desk, 7, 0)
}

// A closed seat is given to the next who opens, with the reset state.
fn print_closed(rt: &impl Print, desk: &mut [u8]) -> io::Result<()> {
    write(rt, desk, 7, 0x14, 9)?;
    ask(rt, desk, 7, 0x14)?;
    close(rt, desk, 7)?;
    ask(rt, desk, 7, 0x14)?;
    ask(rt, desk, 263, 0x14)?;
    open(rt, desk, 0)?;
    ask(rt, desk, 0, 0x14)?;
    open(rt, desk, 7)?;
    ask(rt, desk, 7, 0x14)
}

// With 0, 263 and 7 the desk has room for thirteen more.
fn print_full(rt: &impl Print, desk: &mut [u8]) -> io::Result<()> {
    open_row(rt, desk, 13)?;
    open(rt, desk, 65535)?;
    open(rt, desk, 263)?;
    close(rt, desk, 0)?;
    open(rt, desk, 65535)?;
    ask(rt, desk, 65535, 0x14)
}

// A byte too few and one too many.
fn print_lengths(rt: &impl Print) -> io::Result<()> {
    let mut short = [170u8; 34479];
    let mut long = [170u8; 34481];
    start(rt, &mut short)?;
    start(rt, &mut long)?;
    open(rt, &mut long, 7)
}

fn print_desk(rt: &impl Print, desk: &mut [u8]) -> io::Result<()> {
    start(rt, desk)?;
    print_story(rt, desk)?;
    print_refusals(rt, desk)?;
    print_closed(rt, desk)?;
    damaged::print_damaged(rt, desk)?;
    print_full(rt, desk)?;
    damaged::print_before(rt, desk)
}

fn main(rt: HostRuntime) -> io::Result<()> {
    let mut desk = [170u8; 34480];
    print_lengths(&rt)?;
    print_desk(&rt, &mut desk)
}
