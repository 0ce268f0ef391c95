// The tilemap's layer of a line.
ghost use Rattle.std.specs.Prelude.{◌≡◌, true, ℕ, ◌<◌, ◌≤◌, length, get_or};
ghost use Rattle.lists.specs.Tab.{tab};
ghost use Rattle.state_bits.specs.Bits.{ula_on};
ghost use Rattle.state.specs.Lawful.{all_colours};
ghost use Rattle.tilemap_entries.specs.Bounds.{SetupBounds};
ghost use Rattle.tilemap_setup.specs.Setup.{setup_of, window_of};
ghost use Rattle.tilemap.specs.Dots.{tile_dot};
ghost use Rattle.line_dots.specs.Compose.{stencil_on, composed};
ghost use Rattle.line_dots.specs.Shades.{shades_of};

use crate::compose::compose_row;
use line_dots::{stencil_on, unless_transparent};
use state::{Tiles, Ula};
use surface::LineNumber;
use tilemap_entries::TileSetup;
use tilemap_setup::Window;

// The palette lent, with 512 at each index of the transparent pixel: no dot of a line is then tested for it.
fn shade_palette(pal: &[u16; 256], transparent: u8, out: &mut [u16])
    requires { length out.old ≡ 256 }
    ensures { out.new ≡ shades_of pal.now transparent }
{
    for (i, shade) in out.iter_mut().enumerate() {
        *shade = unless_transparent(transparent, i as u8, pal[i]);
    }
}

// The tile dots of a line composed with the ULA's in out. Without a window there is nothing to lay: the ULA's dots stay, or nothing
// is left of them under a stencil.
fn layered(
    t: TileSetup,
    w: Window,
    transparent: u8,
    stencil: bool,
    pal: &[u16; 256],
    bank: &[u8],
    line: LineNumber,
    out: &mut [u16],
)
    requires { (SetupBounds t) × (all_colours pal.now ≡ true) × (line.0 < 256) × (length bank.now ≡ 16384) × (length out.old ≡ 640) }
    ensures { out.new ≡ tab (λ (k : ℕ). composed stencil pal.now (get_or out.old k 0) (tile_dot w t transparent bank.now line.0 k)) 640 }
{
    if w.on {
        let mut shades = [0u16; 256];
        shade_palette(pal, transparent, &mut shades);
        let mut row = [0u16; 648];
        tilemap::tile_row(t, &shades, bank, line, &mut row);
        compose_row(stencil, &row, t.columns80, t.x % 8, w.left, w.right, out);
    } else if stencil {
        surface_rows::paint(512, out);
    }
}

// The tilemap's dots composed with the ULA's in out, of any state with these parts and this palette shown; a lawful state keeps their
// bounds. A leaf for a caller that reads the palette only where the tilemap is on.
pub fn tiles_over(
    u: Ula,
    t: Tiles,
    clip: &[u8; 4],
    pal: &[u16; 256],
    bank: &[u8],
    line: LineNumber,
    out: &mut [u16],
)
    requires { (t.xhigh ≤ 3) × (t.map < 64) × (t.definitions < 64) × (all_colours pal.now ≡ true) × (line.0 < 256) × (length bank.now ≡ 16384) × (length out.old ≡ 640) }
    ensures { out.new ≡ tab (λ (k : ℕ). composed (stencil_on u t) pal.now (get_or out.old k 0)
        (tile_dot (window_of t clip.now line) (setup_of t (ula_on u)) t.transparent bank.now line.0 k)) 640 }
{
    let w = tilemap_setup::window_of(t, clip, line);
    let l = tilemap_setup::setup_of(t, state_bits::ula_on(u));
    let stencil = stencil_on(u, t);
    layered(l, w, t.transparent, stencil, pal, bank, line, out);
}
