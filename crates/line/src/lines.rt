// A line before the fallback.
ghost use Rattle.std.specs.Prelude.{◌≡◌, true, cond, length};
ghost use Rattle.state_bits.specs.Bits.{ula_second_shown, tile_second_shown};
ghost use Rattle.state.specs.Lawful.{lawful_state};
ghost use Rattle.surface.specs.Lines.{is_line};
ghost use Rattle.line.specs.Lines.{composed_line};
ghost use Rattle.line.specs.Shown.{state_shown, ShownBounds};

use crate::parts::{Shown, shown_of};
use line_tiles::tiles_over;
use register_parts::registers_of;
use state::{State, Tiles};
use surface::LineNumber;

// The palette shown is lent, not copied.
fn tile_palette<'a>(t: Tiles, first: &'a [u16; 256], second: &'a [u16; 256]) -> &'a [u16; 256]
    ensures { result.now ≡ cond (tile_second_shown t) second.now first.now }
{
    if state_bits::tile_second_shown(t) {
        second
    } else {
        first
    }
}

// The 640 composed dots of a line, 512 where transparent, from what it shows and the palettes shown. Asks for what a lawful state
// keeps, a line and lengths that the caller has judged; what the state alone is refused for it does not ask. With the tilemap off its
// palette may hold anything.
pub fn composed_shown(
    v: Shown,
    ulapal: &[u16; 256],
    tilepal: &[u16; 256],
    ula: &[u8],
    tile: &[u8],
    line: LineNumber,
    out: &mut [u16],
)
    requires { (ShownBounds v tilepal.now) × (is_line line ≡ true) × (length ula.now ≡ 16384) × (length tile.now ≡ 16384) × (length out.old ≡ 640) }
    ensures { out.new ≡ composed_line (state_shown v ulapal.now tilepal.now) ula.now tile.now line }
{
    ula::ula_row(
        v.ula, v.palette, v.ports, v.frame, &v.ulaclip, &v.plus, ulapal, ula, line, out,
    );
    if state_bits::tilemap_on(v.tiles) {
        tiles_over(v.ula, v.tiles, &v.tileclip, tilepal, tile, line, out);
    }
}

// A state's four palettes are lent by one call and chosen here: two of them held apart would be lent at two lifetimes, which no proof
// covers. Not one `Palettes`, since a state lends its own four and would copy 2 KB at each line (docs/DECISIONS.md, "Writes go over parts").
// Asks for what `composed_shown` asks.
pub fn composed_chosen<'a>(
    v: Shown,
    ulafirst: &'a [u16; 256],
    ulasecond: &'a [u16; 256],
    tilefirst: &'a [u16; 256],
    tilesecond: &'a [u16; 256],
    ula: &[u8],
    tile: &[u8],
    line: LineNumber,
    out: &mut [u16],
)
    requires { (ShownBounds v (cond (tile_second_shown v.tiles) tilesecond.now tilefirst.now)) × (is_line line ≡ true) × (length ula.now ≡ 16384) × (length tile.now ≡ 16384) × (length out.old ≡ 640) }
    ensures { out.new ≡ composed_line (state_shown v (cond (ula_second_shown v.palette) ulasecond.now ulafirst.now)
        (cond (tile_second_shown v.tiles) tilesecond.now tilefirst.now)) ula.now tile.now line }
{
    let ulapal = ula_view::ula_palette(v.palette, ulafirst, ulasecond);
    let tilepal = tile_palette(v.tiles, tilefirst, tilesecond);
    composed_shown(v, ulapal, tilepal, ula, tile, line, out);
}

// The composed line of a lawful state.
pub fn composed_line(s: State, line: LineNumber, ula: &[u8], tile: &[u8], out: &mut [u16])
    requires { (lawful_state s ≡ true) × (is_line line ≡ true) × (length ula.now ≡ 16384) × (length tile.now ≡ 16384) × (length out.old ≡ 640) }
    ensures { out.new ≡ composed_line s ula.now tile.now line }
{
    let v = shown_of(registers_of(s));
    composed_chosen(
        v,
        &s.ulafirst,
        &s.ulasecond,
        &s.tilefirst,
        &s.tilesecond,
        ula,
        tile,
        line,
        out,
    );
}
