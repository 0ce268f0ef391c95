// Lines drawn by traces: none with entries, stamps, entries that are refused, states that are refused for some lines, traces that are no
// traces, a state that is not lawful; and all lines carried, which are the lines asked for alone. After a reply stand the place and the first dot.
#![tactic(auto)]

mod asked;
mod frames;
mod traces;

use asked::{ask, ask_unlawful};
use frames::{carry, carry_plain, carry_unlawful};
use state::State;
use std::io;

// Border and paper 0 are colour 56, border 1 is 0.
fn screen() -> State {
    let a = registers::write_register(state::reset(), 0x40, 16);
    let b = registers::write_register(a.state, 0x41, 0x1C);
    b.state
}

// Border 8 is out of its bounds.
fn unlawful() -> State {
    let mut s = screen();
    s.ports.border = 8;
    s
}

fn print_none(rt: &impl Print) -> io::Result<()> {
    ask(rt, "no entries", 0, &traces::NONE)?;
    ask(rt, "no entries", 255, &traces::NONE)?;
    carry(rt, "no entries", &traces::NONE)?;
    carry_plain(rt, "no entries", &traces::NONE)
}

fn ask_lines(rt: &impl Print, label: &str, lines: &[usize], trace: &[u8]) -> io::Result<()> {
    for line in lines {
        ask(rt, label, *line, trace)?;
    }
    Ok(())
}

// A line is drawn by the entries stamped with it or less.
fn print_stamps(rt: &impl Print) -> io::Result<()> {
    let label = "stamps 100, 100, 101";
    ask_lines(rt, label, &[99, 100, 101, 255], &traces::STAMPS)?;
    carry(rt, label, &traces::STAMPS)?;
    carry_plain(rt, label, &traces::STAMPS)?;
    ask_lines(rt, "stamps 0, 255", &[0, 254, 255], &traces::ENDS)?;
    carry(rt, "stamps 0, 255", &traces::ENDS)?;
    ask(rt, "border 1, then 0", 50, &traces::TWICE)?;
    ask_lines(rt, "half a colour", &[19, 20], &traces::HALVES)?;
    carry(rt, "half a colour", &traces::HALVES)
}

// From a refused entry on every line is refused by it.
fn print_entries(rt: &impl Print) -> io::Result<()> {
    ask_lines(rt, "no register", &[19, 20, 30, 255], &traces::NO_REGISTER)?;
    carry(rt, "no register", &traces::NO_REGISTER)?;
    ask_lines(rt, "no mask", &[19, 20, 30], &traces::NO_MASK)?;
    carry(rt, "no mask", &traces::NO_MASK)?;
    ask(rt, "$BF3B above 127", 0, &traces::FAR_SELECT)?;
    ask_lines(rt, "two are bad", &[4, 5], &traces::TWO_BAD)
}

// Lines 10 to 19 are refused for their state, and line 20 draws again.
fn print_state(rt: &impl Print, label: &str, trace: &[u8]) -> io::Result<()> {
    ask_lines(rt, label, &[9, 10, 19, 20], trace)?;
    carry(rt, label, trace)
}

fn print_states(rt: &impl Print) -> io::Result<()> {
    print_state(rt, "LoRes with tiles", &traces::LORES_WITH_TILES)?;
    print_state(rt, "ULANext with ULAplus", &traces::NEXT_WITH_PLUS)?;
    print_state(rt, "no mode", &traces::NO_MODE)?;
    print_state(rt, "far offset", &traces::FAR_OFFSET)
}

fn print_whole(rt: &impl Print, label: &str, trace: &[u8]) -> io::Result<()> {
    ask(rt, label, 0, trace)?;
    carry(rt, label, trace)
}

fn print_bad(rt: &impl Print) -> io::Result<()> {
    print_whole(rt, "two bytes", &traces::TWO_BYTES)?;
    print_whole(rt, "another number", &traces::OTHER_NUMBER)?;
    print_whole(rt, "version 2", &traces::VERSION_2)?;
    print_whole(rt, "a cut entry", &traces::CUT)?;
    print_whole(rt, "kind 2", &traces::KIND_2)?;
    print_whole(rt, "port 4", &traces::PORT_4)?;
    print_whole(rt, "lines 6, 5", &traces::FALLING)
}

fn print_first(rt: &impl Print) -> io::Result<()> {
    print_whole(rt, "25 before 26", &traces::BOTH)?;
    ask(rt, "26 before 9", 255, &traces::FALLING_BAD)?;
    ask(rt, "1 before 25", 256, &traces::TWO_BYTES)?;
    ask_unlawful(rt, "4 before 25", 0, &traces::TWO_BYTES)?;
    carry_unlawful(rt, "4 before 25", &traces::TWO_BYTES)?;
    ask_unlawful(rt, "4 before 9", 20, &traces::NO_REGISTER)?;
    ask(rt, "9 before 6", 10, &traces::BAD_AFTER_TILES)
}

// The state is judged before its entries: one that would make it lawful is not tried.
fn print_unlawful(rt: &impl Print) -> io::Result<()> {
    ask_unlawful(rt, "border 8, then 1", 0, &traces::ENDS)?;
    ask_unlawful(rt, "border 8, then 1", 255, &traces::ENDS)?;
    carry_unlawful(rt, "border 8, then 1", &traces::ENDS)
}

fn main(rt: HostRuntime) -> io::Result<()> {
    print_none(&rt)?;
    print_stamps(&rt)?;
    print_entries(&rt)?;
    print_states(&rt)?;
    print_bad(&rt)?;
    print_first(&rt)?;
    print_unlawful(&rt)
}
