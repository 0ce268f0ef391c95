// The registers by number: what each is written by and what each reads as. Writes go over the parts of a state, so that a call that makes many
// copies none; those on a whole state are made of them.
#![tactic(auto)]

ghost use Rattle.std.specs.Prelude.{◌≡◌};
ghost use Rattle.register_parts.specs.Parts.{state_with, answer_with};
ghost use Rattle.register_answers.specs.Rows.{write_by, read_by};
ghost use Rattle.register_tables.specs.Tables.{register_writes, register_reads};

use register_answers::{no_read, no_write};
use register_palettes::{write_eight, write_nine};
use register_parts::{Palettes, Registers, Written, answer_with, palettes_of, registers_of};
use reply::Reply;
use state::{Answer, State};

// The write by number to the parts of a state, without the judgement of lawful. $41 and $44 store colours, and are lent the palettes.
#[tactic(auto, using(crate::proofs::Apart::bare_arm))]
pub fn write_apart(g: Registers, number: u8, value: u8, p: &mut Palettes) -> Written
    ensures { answer_with result p.new ≡ write_by register_writes (state_with g p.old) number value }
{
    match number {
        0x08 => register_stored::write_peripheral(g, value),
        0x14 => register_stored::write_transparent(g, value),
        0x15 => register_stored::write_layers(g, value),
        0x1A => register_clips::write_ula_clip(g, value),
        0x1B => register_clips::write_tile_clip(g, value),
        0x1C => register_clips::write_turns(g, value),
        0x26 => register_stored::write_ula_x(g, value),
        0x27 => register_stored::write_ula_y(g, value),
        0x2F => register_stored::write_tile_x_high(g, value),
        0x30 => register_stored::write_tile_x_low(g, value),
        0x31 => register_stored::write_tile_y(g, value),
        0x32 => register_stored::write_lores_x(g, value),
        0x33 => register_stored::write_lores_y(g, value),
        0x40 => register_palettes::write_index(g, value),
        0x41 => write_eight(g, value, p),
        0x42 => register_palettes::write_mask(g, value),
        0x43 => register_palettes::write_control(g, value),
        0x44 => write_nine(g, value, p),
        0x4A => register_stored::write_fallback(g, value),
        0x4C => register_stored::write_tile_transparent(g, value),
        0x68 => register_stored::write_ula_control(g, value),
        0x6B => register_stored::write_tile_control(g, value),
        0x6C => register_stored::write_tile_attribute(g, value),
        0x6E => register_stored::write_map(g, value),
        0x6F => register_stored::write_definitions(g, value),
        _ => no_write(g),
    }
}

// The same on a whole state, for calls that have judged it.
pub fn write_numbered(s: State, number: u8, value: u8) -> Answer
    ensures { result ≡ write_by register_writes s number value }
{
    let g = registers_of(s);
    let mut p = palettes_of(s);
    let w = write_apart(g, number, value, &mut p);
    answer_with(w, &p)
}

// The read by number without the judgement of lawful. Reads move nothing.
pub fn read_numbered(s: State, number: u8) -> Result<u8, Reply>
    ensures { result ≡ read_by register_reads s number }
{
    match number {
        0x08 => Ok(s.ula.peripheral),
        0x14 => Ok(s.ula.transparent),
        0x15 => Ok(s.ula.layers),
        0x1A => Ok(register_clips::clip_next(s.ulaclip, s.turns.ula)),
        0x1B => Ok(register_clips::clip_next(s.tileclip, s.turns.tiles)),
        0x1C => Ok(register_clips::read_turns(s)),
        0x26 => Ok(s.ula.x),
        0x27 => Ok(s.ula.y),
        0x2F => Ok(s.tiles.xhigh),
        0x30 => Ok(s.tiles.xlow),
        0x31 => Ok(s.tiles.y),
        0x32 => Ok(s.ula.loresx),
        0x33 => Ok(s.ula.loresy),
        0x40 => Ok(s.palette.index),
        0x41 => Ok(register_palettes::read_eight(s)),
        0x42 => Ok(s.palette.mask),
        0x43 => Ok(s.palette.control),
        0x44 => Ok(register_palettes::read_nine(s)),
        0x4A => Ok(s.ula.fallback),
        0x4C => Ok(s.tiles.transparent),
        0x68 => Ok(s.ula.control),
        0x6B => Ok(s.tiles.control),
        0x6C => Ok(s.tiles.attribute),
        0x6E => Ok(s.tiles.map),
        0x6F => Ok(s.tiles.definitions),
        _ => no_read(),
    }
}
