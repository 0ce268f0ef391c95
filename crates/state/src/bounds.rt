// What is lawful: the bounds of a group's registers together, and those of a whole state. A group's test is one chain of `&` in the order of
// its definition.
ghost use Rattle.std.specs.Prelude.{◌≡◌, ◌&&◌};
ghost use Rattle.state.specs.Lawful.{lawful_ula, lawful_palette, lawful_tiles, lawful_turns, lawful_ports, all_colours, lawful_state, lawful_reply};

use crate::{Palette, Ports, State, Tiles, Turns, Ula};
use register_bounds::{
    base_fits, border_fits, half_fits, is_choice, is_mask, offset_y_fits, select_fits,
    tile_control_fits, tile_transparent_fits, turn_fits, ula_control_fits, x_high_fits,
};
use reply::Reply;

fn lawful_ula(u: Ula) -> bool
    ensures { result ≡ lawful_ula u }
{
    offset_y_fits(u.y) & offset_y_fits(u.loresy) & ula_control_fits(u.control)
}

fn lawful_palette(p: Palette) -> bool
    ensures { result ≡ lawful_palette p }
{
    let mask = is_mask(p.mask);
    let choice = is_choice(p.control);
    let half = half_fits(p.held, p.half);
    mask & choice & half
}

fn lawful_tiles(t: Tiles) -> bool
    ensures { result ≡ lawful_tiles t }
{
    tile_transparent_fits(t.transparent)
        & tile_control_fits(t.control)
        & x_high_fits(t.xhigh)
        & base_fits(t.map)
        & base_fits(t.definitions)
}

fn lawful_turns(t: Turns) -> bool
    ensures { result ≡ lawful_turns t }
{
    turn_fits(t.ula) & turn_fits(t.tiles)
}

fn lawful_ports(p: Ports) -> bool
    ensures { result ≡ lawful_ports p }
{
    border_fits(p.border) & select_fits(p.select)
}

// Every entry is looked at, with no early exit, so that the loop can be vectorised.
fn all_colours(p: &[u16]) -> bool
    ensures { result ≡ all_colours p.now }
{
    let mut ok = true;
    for colour in p {
        ok = ok & (*colour <= 511);
    }
    ok
}

// All but the colours.
pub fn lawful_registers(u: Ula, p: Palette, t: Tiles, turns: Turns, ports: Ports) -> bool
    ensures { result ≡ (lawful_ula u && lawful_palette p && lawful_tiles t && lawful_turns turns && lawful_ports ports) }
{
    lawful_ula(u) & lawful_palette(p) & lawful_tiles(t) & lawful_turns(turns) & lawful_ports(ports)
}

pub fn lawful(s: State) -> bool
    ensures { result ≡ lawful_state s }
{
    let registers = lawful_registers(s.ula, s.palette, s.tiles, s.turns, s.ports);
    let a = all_colours(&s.ulafirst);
    let b = all_colours(&s.ulasecond);
    let c = all_colours(&s.tilefirst);
    let d = all_colours(&s.tilesecond);
    registers & a & b & c & d
}

// The refusal of a state that is not lawful.
pub fn lawful_reply(s: State) -> Reply
    ensures { result ≡ lawful_reply s }
{
    if lawful(s) {
        Reply::Done
    } else {
        Reply::NotLawful
    }
}
