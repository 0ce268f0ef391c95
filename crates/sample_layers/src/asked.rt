// A line with lent layers asked for, and its answer printed.
ghost use Rattle.std.specs.Prelude.{◌≤◌};

use state::State;
use std::{fmt, io};
use surface::LineNumber;

// Border and paper 0 are colour 56, the fallback is 448.
fn screen(order: u8, transparent: u8, border: u8) -> State {
    let a = registers::write_register(state::reset(), 0x40, 16);
    let b = registers::write_register(a.state, 0x41, 0x1C);
    let c = registers::write_register(b.state, 0x4A, 0xE0);
    let d = registers::write_register(c.state, 0x14, transparent);
    let e = registers::write_register(d.state, 0x15, order);
    let mut s = e.state;
    s.ports.border = border;
    s
}

// The reply, and numbers of the line.
fn print_answer<D: fmt::Display + Drop>(
    rt: &impl Print,
    label: D,
    number: u8,
    dots: &[u16],
) -> io::Result<()> {
    print!(rt; "{label}: {number}")?;
    for dot in dots {
        print!(rt; " {dot}")?;
    }
    println!(rt; "")
}

// The first six dots: sprite 100 over or under Layer 2's 200, each alone, neither, and Layer 2's 300 with priority, with the sprite and
// alone.
pub fn ask_order(rt: &impl Print, label: &str, order: u8, transparent: u8) -> io::Result<()> {
    let bank = [0u8; 16384];
    let mut dots = [65535u16; 640];
    let mut layer2 = [512u16; 640];
    let mut sprites = [512u16; 640];
    layer2[..6].copy_from_slice(&[200, 512, 200, 512, 1324, 1324]);
    sprites[..6].copy_from_slice(&[100, 100, 512, 512, 100, 512]);
    let s = screen(order, transparent, 0);
    let r = layers::draw_layers(LineNumber(0), &bank, &bank, &layer2, &sprites, s, &mut dots);
    print_answer(rt, label, u8::from(r), &dots[..6])
}

// The last numbers of both lent lines, and the last dot.
pub fn ask_number<D: fmt::Display + Drop>(
    rt: &impl Print,
    label: D,
    layer2: u16,
    sprite: u16,
    order: u8,
    border: u8,
) -> io::Result<()> {
    let bank = [0u8; 16384];
    let mut dots = [65535u16; 640];
    let mut layer2_line = [512u16; 640];
    let mut sprite_line = [512u16; 640];
    layer2_line[639] = layer2;
    sprite_line[639] = sprite;
    let s = screen(order, 0xE3, border);
    let r = layers::draw_layers(
        LineNumber(0),
        &bank,
        &bank,
        &layer2_line,
        &sprite_line,
        s,
        &mut dots,
    );
    print_answer(rt, label, u8::from(r), &dots[639..])
}

// Lines of these lengths, each at most one past the right one, and the first dot.
pub fn ask_lengths(
    rt: &impl Print,
    label: &str,
    layer2: usize,
    sprites: usize,
    width: usize,
) -> io::Result<()>
    requires { (layer2 ≤ 641) × (sprites ≤ 641) × (width ≤ 641) }
{
    let bank = [0u8; 16384];
    let none = [512u16; 641];
    let other = [512u16; 641];
    let mut dots = [65535u16; 641];
    let s = screen(0, 0xE3, 0);
    let r = layers::draw_layers(
        LineNumber(0),
        &bank,
        &bank,
        &none[..layer2],
        &other[..sprites],
        s,
        &mut dots[..width],
    );
    print_answer(rt, label, u8::from(r), &dots[..1])
}
