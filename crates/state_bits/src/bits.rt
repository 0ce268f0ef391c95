// What single bits of the registers mean.
ghost use Rattle.std.specs.Prelude.{◌≡◌, ◌+◌, ◌*◌, ◌<◌, ◌≤◌};
ghost use Rattle.state_bits.specs.Bits.{timex_on, lores_on, layer_order, next_on, ula_second_shown, ula_on, stencil_set, tilemap_on, columns80, one_byte_entries, tile_second_shown, columns_of, width_of, x_offset, index_stays};

use state::{Palette, Tiles, Ula};

pub fn timex_on(u: Ula) -> bool
    ensures { result ≡ timex_on u }
{
    u.peripheral / 4 % 2 == 1
}

pub fn lores_on(u: Ula) -> bool
    ensures { result ≡ lores_on u }
{
    128 <= u.layers
}

pub fn layer_order(u: Ula) -> u8
    ensures { result ≡ layer_order u }
{
    u.layers / 4 % 8
}

pub fn next_on(p: Palette) -> bool
    ensures { result ≡ next_on p }
{
    p.control % 2 == 1
}

pub fn ula_on(u: Ula) -> bool
    ensures { result ≡ ula_on u }
{
    u.control < 128
}

pub fn stencil_set(u: Ula) -> bool
    ensures { result ≡ stencil_set u }
{
    u.control % 2 == 1
}

pub fn tilemap_on(t: Tiles) -> bool
    ensures { result ≡ tilemap_on t }
{
    128 <= t.control
}

pub fn ula_second_shown(p: Palette) -> bool
    ensures { result ≡ ula_second_shown p }
{
    p.control / 2 % 2 == 1
}

pub fn tile_second_shown(t: Tiles) -> bool
    ensures { result ≡ tile_second_shown t }
{
    t.control / 16 % 2 == 1
}

pub fn columns80(t: Tiles) -> bool
    ensures { result ≡ columns80 t }
{
    t.control / 64 % 2 == 1
}

pub fn one_byte_entries(t: Tiles) -> bool
    ensures { result ≡ one_byte_entries t }
{
    t.control / 32 % 2 == 1
}

pub fn columns_of(columns80: bool) -> usize
    ensures { (result ≡ columns_of columns80) × (result ≤ 80) }
{
    if columns80 { 80 } else { 40 }
}

// The width in pixels.
pub fn width_of(columns80: bool) -> usize
    ensures { (result ≡ width_of columns80) × (result ≤ 640) }
{
    columns_of(columns80) * 8
}

// The two bytes of the X offset.
pub fn x_offset(t: Tiles) -> usize
    ensures { (result ≡ x_offset t) × (result < t.xhigh * 256 + 256) }
{
    usize::from(t.xhigh) * 256 + usize::from(t.xlow)
}

pub fn index_stays(control: u8) -> bool
    ensures { result ≡ index_stays control }
{
    128 <= control
}
