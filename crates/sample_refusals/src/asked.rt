// A drawing asked for, and its answer printed.
ghost use Rattle.std.specs.Prelude.{◌≤◌};

use crate::states;
use reply::Reply;
use state::State;
use std::io;
use surface::LineNumber;

fn print_answer(rt: &impl Print, label: &str, r: Reply, first: u16, last: u16) -> io::Result<()> {
    println!(rt; "{label}: {} {first} {last}", u8::from(r))
}

fn draw(rt: &impl Print, label: &str, y: usize, s: State) -> io::Result<()> {
    let bank = [0u8; 16384];
    let mut dots = [65535u16; 640];
    let r = line::draw(LineNumber(y), &bank, &bank, s, &mut dots);
    print_answer(rt, label, r, dots[0], dots[639])
}

// Line y of the plain state after writes of three bytes each.
pub fn ask(rt: &impl Print, label: &str, y: usize, writes: &[u8]) -> io::Result<()> {
    draw(rt, label, y, states::after(writes))
}

// Line y of the plain state with a border.
pub fn ask_bordered(rt: &impl Print, label: &str, y: usize, border: u8) -> io::Result<()> {
    draw(rt, label, y, states::bordered(states::plain(), border))
}

// Line 0 of the plain state after writes, with a border that is not lawful.
pub fn ask_unlawful(rt: &impl Print, label: &str, writes: &[u8]) -> io::Result<()> {
    draw(rt, label, 0, states::bordered(states::after(writes), 8))
}

// Line y of the plain state with a border, and buffers of these lengths, each at most one past the right one.
pub fn ask_lengths(
    rt: &impl Print,
    label: &str,
    y: usize,
    ula: usize,
    tile: usize,
    width: usize,
    border: u8,
) -> io::Result<()>
    requires { (ula ≤ 16385) × (tile ≤ 16385) × (width ≤ 641) }
{
    let bank = [0u8; 16385];
    let other = [0u8; 16385];
    let mut dots = [65535u16; 641];
    let s = states::bordered(states::plain(), border);
    let r = line::draw(
        LineNumber(y),
        &bank[..ula],
        &other[..tile],
        s,
        &mut dots[..width],
    );
    print_answer(rt, label, r, dots[0], dots[639])
}
