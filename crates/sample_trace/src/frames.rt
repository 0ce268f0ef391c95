// All lines carried, and compared dot by dot with lines asked for alone.
ghost use Rattle.std.specs.Prelude.{◌≡◌, length};

use crate::{screen, unlawful};
use state::State;
use std::io;
use surface::LineNumber;

// The line asked for alone has the same reply, place and dots.
fn same_line(line: usize, s: State, trace: &[u8], dots: &[u16], n: u8, place: u16) -> bool
    requires { length dots.now ≡ 640 }
{
    let bank = [0u8; 16384];
    let mut alone = [65535u16; 640];
    let got = trace::draw_traced(LineNumber(line), &bank, &bank, s, trace, &mut alone);
    let r = got.reply;
    (u8::from(r) == n) & (got.place == place) & (alone.as_slice() == dots)
}

// By the line's number: three lists go side by side.
fn same_lines(s: State, trace: &[u8], dots: &[u16], replies: &[u8], places: &[u16]) -> bool
    requires { (length dots.now ≡ 163840) × (length replies.now ≡ 256) × (length places.now ≡ 256) }
{
    for line in 0..256 {
        let a = line * 640;
        let e = a + 640;
        if !same_line(line, s, trace, &dots[a..e], replies[line], places[line]) {
            return false;
        }
    }
    true
}

// The line drawn without a trace has the same dots.
fn same_plain(line: usize, dots: &[u16]) -> bool
    requires { length dots.now ≡ 640 }
{
    let bank = [0u8; 16384];
    let mut plain = [65535u16; 640];
    line::draw(LineNumber(line), &bank, &bank, screen(), &mut plain);
    plain.as_slice() == dots
}

fn all_plain(dots: &[u16]) -> bool
    requires { length dots.now ≡ 163840 }
{
    for (line, these) in dots.chunks_exact(640).enumerate() {
        if !same_plain(line, these) {
            return false;
        }
    }
    true
}

fn whether(same: bool) -> &'static str {
    if same { "same" } else { "not the same" }
}

// The reply to the whole call; then, where it draws, whether each line is as it is alone; else the first dot, reply and place, which are as
// they were.
fn carry_of(rt: &impl Print, label: &str, s: State, trace: &[u8]) -> io::Result<()> {
    let bank = [0u8; 16384];
    let mut dots = [65535u16; 163840];
    let mut replies = [255u8; 256];
    let mut places = [65535u16; 256];
    let r = trace::draw_carried(&bank, &bank, s, trace, &mut dots, &mut replies, &mut places);
    print!(rt; "{label}, carried: {}", u8::from(r))?;
    if r.is_done() {
        let same = same_lines(s, trace, &dots, &replies, &places);
        println!(rt; " {}", whether(same))
    } else {
        println!(rt; " {} {} {}", dots[0], replies[0], places[0])
    }
}

pub fn carry(rt: &impl Print, label: &str, trace: &[u8]) -> io::Result<()> {
    carry_of(rt, label, screen(), trace)
}

pub fn carry_unlawful(rt: &impl Print, label: &str, trace: &[u8]) -> io::Result<()> {
    carry_of(rt, label, unlawful(), trace)
}

// Whether each line of a carried drawing is as it is without a trace.
pub fn carry_plain(rt: &impl Print, label: &str, trace: &[u8]) -> io::Result<()> {
    let bank = [0u8; 16384];
    let mut dots = [65535u16; 163840];
    let mut replies = [255u8; 256];
    let mut places = [65535u16; 256];
    trace::draw_carried(
        &bank,
        &bank,
        screen(),
        trace,
        &mut dots,
        &mut replies,
        &mut places,
    );
    println!(rt;
        "{label}, as without a trace: {}",
        whether(all_plain(&dots))
    )
}
