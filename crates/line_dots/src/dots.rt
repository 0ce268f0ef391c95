// A composed dot, and the fallback over a line of them.
ghost use Rattle.std.specs.Prelude.{◌≡◌, length};
ghost use Rattle.line_dots.specs.Opaque.{opaque};
ghost use Rattle.line_dots.specs.Compose.{stencilled, stencil_on, finished};
ghost use Rattle.line_dots.specs.Shades.{unless_transparent, shade_over};

use state::{Tiles, Ula};

pub fn stencil_on(u: Ula, t: Tiles) -> bool
    ensures { result ≡ stencil_on u t }
{
    let ula = state_bits::ula_on(u);
    let tiles = state_bits::tilemap_on(t);
    state_bits::stencil_set(u) & ula & tiles
}

// A colour of the palette at an index, or 512 where the pixel there is the transparent one.
pub fn unless_transparent(transparent: u8, i: u8, colour: u16) -> u16
    ensures { result ≡ unless_transparent transparent i colour }
{
    if i % 16 == transparent { 512 } else { colour }
}

fn stencil_dot(a: u16, b: u16) -> u16
    ensures { result ≡ stencilled a b }
{
    if (a == 512) | (b == 512) { 512 } else { a & b }
}

// A dot before the fallback, 512 where transparent, of the ULA's and a tile dot's shade. All three are made and one is chosen: no dot
// costs a jump.
pub fn composed_dot(stencil: bool, u: u16, v: u16) -> u16
    ensures { result ≡ shade_over stencil u v }
{
    let t = v % 1024;
    let both = stencil_dot(u, t);
    let ula_first = surface::top_dot(u, t);
    let tile_first = surface::top_dot(t, u);
    if stencil {
        both
    } else if v / 1024 == 1 {
        ula_first
    } else {
        tile_first
    }
}

// The fallback colour at each dot that is transparent.
fn cover_line(fallback: u16, out: &mut [u16])
    requires { length out.old ≡ 640 }
    ensures { out.new ≡ finished fallback out.old }
{
    for dot in out.iter_mut() {
        *dot = surface::top_dot(*dot, fallback);
    }
}

// No dot is transparent. Every dot is looked at, with no early exit, so that the loop can be vectorised, and as many as a number says: a fold over
// a line of any length takes half as many instructions again.
fn is_opaque(out: &[u16]) -> bool
    requires { length out.now ≡ 640 }
    ensures { result ≡ opaque out.now }
{
    let mut ok = true;
    for dot in &out[..640] {
        ok = (*dot != 512) & ok;
    }
    ok
}

// The fallback colour where a composed line is transparent. Most lines have no such dot, and to look costs less than to write them all.
pub fn finish_line(fallback: u16, out: &mut [u16])
    requires { length out.old ≡ 640 }
    ensures { out.new ≡ finished fallback out.old }
{
    if is_opaque(out) {
        return;
    }
    cover_line(fallback, out);
}
