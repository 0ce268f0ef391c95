// Lines asked for by a trace, and their answers printed.
use crate::{screen, unlawful};
use state::State;
use std::io;
use surface::LineNumber;

// The reply, the place and the line's first dot, 65535 where it is as it was.
fn ask_of(rt: &impl Print, label: &str, line: usize, s: State, trace: &[u8]) -> io::Result<()> {
    let bank = [0u8; 16384];
    let mut dots = [65535u16; 640];
    let got = trace::draw_traced(LineNumber(line), &bank, &bank, s, trace, &mut dots);
    let r = got.reply;
    println!(rt;
        "{label}, line {line}: {} {} {}",
        u8::from(r),
        got.place,
        dots[0]
    )
}

pub fn ask(rt: &impl Print, label: &str, line: usize, trace: &[u8]) -> io::Result<()> {
    ask_of(rt, label, line, screen(), trace)
}

pub fn ask_unlawful(rt: &impl Print, label: &str, line: usize, trace: &[u8]) -> io::Result<()> {
    ask_of(rt, label, line, unlawful(), trace)
}
