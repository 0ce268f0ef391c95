// A colour of the four palettes where the palette registers point, read and stored.
#![tactic(auto)]

ghost use Rattle.std.specs.Prelude.{◌≡◌};
ghost use Rattle.register_bounds.specs.Bounds.{choice_of};
ghost use Rattle.register_parts.specs.Parts.{state_with};
ghost use Rattle.register_colours.specs.Colours.{colour_at, colour_stored, next_index, colour_put};

use register_bounds::choice_of;
use register_parts::{Palettes, Registers};
use state::State;
use state_bits::index_stays;

// The colour where the palette registers point.
pub fn chosen_colour(s: State) -> u16
    ensures { result ≡ colour_at s }
{
    let i = s.palette.index as usize;
    let choice = choice_of(s.palette.control);
    match choice {
        0 => s.ulafirst[i],
        4 => s.ulasecond[i],
        3 => s.tilefirst[i],
        _ => s.tilesecond[i],
    }
}

// Stores a colour where the palette registers point.
fn store_colour(g: Registers, colour: u16, p: &mut Palettes)
    ensures { state_with g p.new ≡ colour_stored (state_with g p.old) (choice_of g.palette.control) g.palette.index colour }
{
    let i = g.palette.index as usize;
    let choice = choice_of(g.palette.control);
    match choice {
        0 => p.ulafirst[i] = colour,
        4 => p.ulasecond[i] = colour,
        3 => p.tilefirst[i] = colour,
        _ => p.tilesecond[i] = colour,
    }
}

fn next_index(control: u8, index: u8) -> u8
    ensures { result ≡ next_index control index }
{
    if index_stays(control) {
        index
    } else {
        std::num::wrapping_add_u8(index, 1)
    }
}

// A colour stored where the palette registers point; the index moves, and no half is held.
pub fn put_colour(g: Registers, colour: u16, p: &mut Palettes) -> Registers
    ensures { state_with result p.new ≡ colour_put (state_with g p.old) colour }
{
    store_colour(g, colour, p);
    let next = next_index(g.palette.control, g.palette.index);
    let mut t = g;
    t.palette.index = next;
    t.palette.held = false;
    t.palette.half = 0;
    t
}
