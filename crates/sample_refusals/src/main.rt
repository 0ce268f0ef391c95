// The samples (section 11 of the rules) that are not starred, each refusal of a drawing, and the order of the refusals. After the
// reply stand the first and the last number of the lent line, 65535 where it is as it was. A state is given by its writes: a register's
// number or a port's, high byte first, and a value.
#![tactic(auto)]

mod asked;
mod states;

use asked::{ask, ask_bordered, ask_lengths, ask_unlawful};
use std::io;

fn print_samples(rt: &impl Print) -> io::Result<()> {
    ask_bordered(rt, "line 255", 255, 0)?;
    ask_bordered(rt, "line 256", 256, 0)?;
    ask(
        rt,
        "X offset 319",
        0,
        b"\x00\x6B\x80\x00\x2F\x01\x00\x30\x3F",
    )?;
    ask(
        rt,
        "X offset 320",
        0,
        b"\x00\x6B\x80\x00\x2F\x01\x00\x30\x40",
    )?;
    println!(rt; "mask 5 {}", states::mask_reply(5))
}

// By calls and not from a table: each call shows that its lengths are within their bounds.
fn print_lengths(rt: &impl Print) -> io::Result<()> {
    ask_lengths(rt, "ULA bank 16383", 0, 16383, 16384, 640, 0)?;
    ask_lengths(rt, "tile bank 16385", 0, 16384, 16385, 640, 0)?;
    ask_lengths(rt, "639 dots", 0, 16384, 16384, 639, 0)?;
    ask_bordered(rt, "not lawful", 0, 8)
}

// $08 bit 2, and a mode by port $FF.
fn ask_mode(rt: &impl Print, label: &str, mode: u8) -> io::Result<()> {
    let writes = [0x00, 0x08, 0x04, 0x00, 0xFF, mode];
    ask(rt, label, 0, &writes)
}

fn print_modes(rt: &impl Print) -> io::Result<()> {
    ask_mode(rt, "no mode 3", 3)?;
    ask_mode(rt, "no mode 4", 4)?;
    ask_mode(rt, "no mode 5", 5)?;
    ask_mode(rt, "no mode 7", 7)?;
    ask_mode(rt, "mode 6", 6)
}

fn print_pairs(rt: &impl Print) -> io::Result<()> {
    ask(rt, "LoRes with tiles", 0, b"\x00\x15\x80\x00\x6B\x80")?;
    ask(
        rt,
        "ULANext with ULAplus",
        0,
        b"\x00\x43\x01\xBF\x3B\x40\xFF\x3B\x01",
    )?;
    ask(
        rt,
        "no mode, ULA off",
        0,
        b"\x00\x08\x04\x00\xFF\x03\x00\x68\x80",
    )
}

fn print_early_order(rt: &impl Print) -> io::Result<()> {
    ask_lengths(rt, "line before bank", 256, 16383, 16384, 640, 0)?;
    ask_lengths(rt, "line before line buffer", 256, 16384, 16384, 639, 0)?;
    ask_bordered(rt, "line before state", 256, 8)?;
    ask_lengths(rt, "bank before line buffer", 0, 0, 16384, 0, 0)?;
    ask_lengths(rt, "bank before state", 0, 16384, 16385, 640, 8)?;
    ask_lengths(rt, "line buffer before state", 0, 16384, 16384, 641, 8)?;
    ask(rt, "1 before 6", 256, b"\x00\x15\x80\x00\x6B\x80")
}

fn print_unlawful_order(rt: &impl Print) -> io::Result<()> {
    ask_unlawful(rt, "4 before 6", b"\x00\x15\x80\x00\x6B\x80")?;
    ask_unlawful(rt, "4 before 7", b"\x00\x43\x01\xBF\x3B\x40\xFF\x3B\x01")?;
    ask_unlawful(rt, "4 before 5", b"\x00\x08\x04\x00\xFF\x07")?;
    ask_unlawful(rt, "4 before 8", b"\x00\x6B\x80\x00\x2F\x03")
}

fn print_late_order(rt: &impl Print) -> io::Result<()> {
    ask(
        rt,
        "6 before 7",
        0,
        b"\x00\x15\x80\x00\x6B\x80\x00\x43\x01\xBF\x3B\x40\xFF\x3B\x01",
    )?;
    ask(rt, "6 before 8", 0, b"\x00\x15\x80\x00\x6B\x80\x00\x2F\x03")?;
    ask(
        rt,
        "7 before 5",
        0,
        b"\x00\x08\x04\x00\xFF\x07\x00\x43\x01\xBF\x3B\x40\xFF\x3B\x01",
    )?;
    ask(
        rt,
        "7 before 8",
        0,
        b"\x00\x43\x01\xBF\x3B\x40\xFF\x3B\x01\x00\x6B\x80\x00\x2F\x03",
    )?;
    ask(
        rt,
        "5 before 8",
        0,
        b"\x00\x08\x04\x00\xFF\x07\x00\x6B\x80\x00\x2F\x03",
    )
}

fn main(rt: HostRuntime) -> io::Result<()> {
    print_samples(&rt)?;
    print_lengths(&rt)?;
    print_modes(&rt)?;
    print_pairs(&rt)?;
    print_early_order(&rt)?;
    print_unlawful_order(&rt)?;
    print_late_order(&rt)
}
