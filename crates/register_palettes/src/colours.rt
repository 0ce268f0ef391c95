// The index, and colours written as eight bits at once or as nine bits in two writes. A write that can store a colour is lent the four palettes.
ghost use Rattle.std.specs.Prelude.{◌≡◌, ◌+◌, ◌*◌};
ghost use Rattle.state.specs.Answer.{done};
ghost use Rattle.register_parts.specs.Parts.{state_with, bare, written_of, answer_with};
ghost use Rattle.register_colours.specs.Colours.{colour_put};
ghost use Rattle.register_palettes.specs.Palettes.{index_written, eight_written, nine_first, nine_second, nine_written, eight_read, nine_read};

use colour::widen;
use register_answers::{accept_apart, out_of_bounds};
use register_colours::{chosen_colour, put_colour};
use register_parts::{Palettes, Registers, Written};
use state::State;

// $40
pub fn write_index(g: Registers, value: u8) -> Written
    ensures { result ≡ written_of (index_written (bare g) value) }
{
    let mut t = g;
    t.palette.index = value;
    t.palette.held = false;
    t.palette.half = 0;
    accept_apart(t)
}

// A colour stored where the palette registers point, and answered.
fn write_colour(g: Registers, colour: u16, p: &mut Palettes) -> Written
    ensures { answer_with result p.new ≡ done (colour_put (state_with g p.old) colour) }
{
    let t = put_colour(g, colour, p);
    accept_apart(t)
}

// $41
pub fn write_eight(g: Registers, value: u8, p: &mut Palettes) -> Written
    ensures { answer_with result p.new ≡ eight_written (state_with g p.old) value }
{
    let colour = widen(value);
    write_colour(g, colour, p)
}

fn nine_first(g: Registers, value: u8) -> Written
    ensures { result ≡ written_of (nine_first (bare g) value) }
{
    let mut t = g;
    t.palette.held = true;
    t.palette.half = value;
    accept_apart(t)
}

// The colour that a second write completes.
fn nine_bits(half: u8, bit: u8) -> u16
    ensures { result ≡ half * 2 + bit }
{
    u16::from(half) * 2 + u16::from(bit)
}

fn nine_second(g: Registers, value: u8, p: &mut Palettes) -> Written
    ensures { answer_with result p.new ≡ nine_second (state_with g p.old) value }
{
    if value <= 1 {
        let colour = nine_bits(g.palette.half, value);
        write_colour(g, colour, p)
    } else {
        out_of_bounds(g)
    }
}

// $44
pub fn write_nine(g: Registers, value: u8, p: &mut Palettes) -> Written
    ensures { answer_with result p.new ≡ nine_written (state_with g p.old) value }
{
    let held = g.palette.held;
    if held {
        nine_second(g, value, p)
    } else {
        nine_first(g, value)
    }
}

// $41
pub fn read_eight(s: State) -> u8
    ensures { result ≡ eight_read s }
{
    (chosen_colour(s) / 2 % 256) as u8
}

// $44
pub fn read_nine(s: State) -> u8
    ensures { result ≡ nine_read s }
{
    (chosen_colour(s) % 2) as u8
}
