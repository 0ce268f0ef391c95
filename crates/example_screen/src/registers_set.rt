// The state of the example, from reset by register writes.
ghost use Rattle.std.specs.Prelude.{◌≡◌};
ghost use Rattle.example_screen.specs.Written.{tile_painted, tilemap_set, example_state};

use spectrum_colours::{paint_ula, set, zx_colour};
use state::State;

// The letter's colour and its spot's, white, for each of eight palette offsets.
fn paint_tiles(s: State) -> State
    ensures { result ≡ tile_painted s 8 }
{
    let mut t = s;
    for i in 0..8 {
        let a = set(t, 0x40, i * 16 + 1);
        let b = set(a, 0x41, zx_colour(i % 7 + 9));
        t = set(b, 0x41, 0xFF);
    }
    t
}

// 40 columns, two bytes an entry, the definitions from 4,096.
fn set_tilemap(s: State) -> State
    ensures { result ≡ tilemap_set s }
{
    let a = set(s, 0x6B, 0x80);
    let b = set(a, 0x6E, 0);
    set(b, 0x6F, 16)
}

// Bright magenta is $E3, the transparent colour of a reset, so $14 is set to a colour that is not shown.
pub fn example_state() -> State
    ensures { result ≡ example_state }
{
    let a = set(state::reset(), 0x14, 1);
    let b = paint_ula(a);
    let c = paint_tiles(set(b, 0x43, 0x30));
    let d = set_tilemap(c);
    let e = registers::write_port(d, 0xFE, 1);
    e.state
}
