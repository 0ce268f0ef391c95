// The clips of the ULA and of the tilemap, written and read a coordinate at a time, and their turns.
#![tactic(auto)]

ghost use Rattle.std.specs.Prelude.{◌≡◌, set};
ghost use Rattle.register_parts.specs.Parts.{bare, written_of};
ghost use Rattle.register_clips.specs.Clips.{coordinate, next_turn, ula_clip_written, tile_clip_written, restarted, turns_written, clip_next, turns_read};

use register_answers::{accept_apart, if_fits};
use register_parts::{Registers, Written};
use state::State;

// Sets the coordinate that is next, and moves the turn on.
fn put_next(clip: &mut [u8; 4], turn: &mut u8, value: u8)
    ensures { (clip.new ≡ set clip.old (coordinate turn.old) value) × (turn.new ≡ next_turn turn.old) }
{
    let next = *turn % 4;
    clip[usize::from(next)] = value;
    *turn = (next + 1) % 4;
}

// $1A
pub fn write_ula_clip(g: Registers, value: u8) -> Written
    ensures { result ≡ written_of (ula_clip_written (bare g) value) }
{
    let mut t = g;
    put_next(&mut t.ulaclip, &mut t.turns.ula, value);
    accept_apart(t)
}

// $1B
pub fn write_tile_clip(g: Registers, value: u8) -> Written
    ensures { result ≡ written_of (tile_clip_written (bare g) value) }
{
    let mut t = g;
    put_next(&mut t.tileclip, &mut t.turns.tiles, value);
    accept_apart(t)
}

// A turn after a restart bit.
fn restart(bit: u8, turn: u8) -> u8
    ensures { result ≡ restarted bit turn }
{
    if bit == 1 { 0 } else { turn }
}

// $1C
pub fn write_turns(g: Registers, value: u8) -> Written
    ensures { result ≡ written_of (turns_written (bare g) value) }
{
    let ok = value <= 15;
    let ula = restart(value / 4 % 2, g.turns.ula);
    let tiles = restart(value / 8 % 2, g.turns.tiles);
    let mut t = g;
    t.turns.ula = ula;
    t.turns.tiles = tiles;
    if_fits(ok, t, g)
}

// $1A and $1B, each of its clip and turn.
pub fn clip_next(clip: [u8; 4], turn: u8) -> u8
    ensures { result ≡ clip_next clip turn }
{
    clip[usize::from(turn % 4)]
}

// $1C
pub fn read_turns(s: State) -> u8
    ensures { result ≡ turns_read s }
{
    s.turns.tiles % 4 * 64 + s.turns.ula % 4
}
