// Writes to the tilemap's registers.
ghost use Rattle.std.specs.Prelude.{◌≡◌};
ghost use Rattle.register_parts.specs.Parts.{bare, written_of};
ghost use Rattle.register_stored.specs.Stored.{tile_xhigh_written, tile_xlow_written, tile_ywritten, tile_transparent_written, tile_control_written, tile_attribute_written, map_written, definitions_written};

use register_answers::{accept_apart, if_fits};
use register_bounds::{tile_control_fits, tile_transparent_fits, x_high_fits};
use register_parts::{Registers, Written};

// $2F
pub fn write_tile_x_high(g: Registers, value: u8) -> Written
    ensures { result ≡ written_of (tile_xhigh_written (bare g) value) }
{
    let ok = x_high_fits(value);
    let mut t = g;
    t.tiles.xhigh = value;
    if_fits(ok, t, g)
}

// $30
pub fn write_tile_x_low(g: Registers, value: u8) -> Written
    ensures { result ≡ written_of (tile_xlow_written (bare g) value) }
{
    let mut t = g;
    t.tiles.xlow = value;
    accept_apart(t)
}

// $31
pub fn write_tile_y(g: Registers, value: u8) -> Written
    ensures { result ≡ written_of (tile_ywritten (bare g) value) }
{
    let mut t = g;
    t.tiles.y = value;
    accept_apart(t)
}

// $4C
pub fn write_tile_transparent(g: Registers, value: u8) -> Written
    ensures { result ≡ written_of (tile_transparent_written (bare g) value) }
{
    let ok = tile_transparent_fits(value);
    let mut t = g;
    t.tiles.transparent = value;
    if_fits(ok, t, g)
}

// $6B
pub fn write_tile_control(g: Registers, value: u8) -> Written
    ensures { result ≡ written_of (tile_control_written (bare g) value) }
{
    let ok = tile_control_fits(value);
    let mut t = g;
    t.tiles.control = value;
    if_fits(ok, t, g)
}

// $6C
pub fn write_tile_attribute(g: Registers, value: u8) -> Written
    ensures { result ≡ written_of (tile_attribute_written (bare g) value) }
{
    let mut t = g;
    t.tiles.attribute = value;
    accept_apart(t)
}

// $6E
pub fn write_map(g: Registers, value: u8) -> Written
    ensures { result ≡ written_of (map_written (bare g) value) }
{
    let kept = value % 64;
    let mut t = g;
    t.tiles.map = kept;
    accept_apart(t)
}

// $6F
pub fn write_definitions(g: Registers, value: u8) -> Written
    ensures { result ≡ written_of (definitions_written (bare g) value) }
{
    let kept = value % 64;
    let mut t = g;
    t.tiles.definitions = kept;
    accept_apart(t)
}
