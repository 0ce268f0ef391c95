// What of the state a line of the tilemap shows, read once a line.
ghost use Rattle.std.specs.Prelude.{◌≡◌, ◌+◌, ◌*◌, ◌≤◌, ◌<◌};
ghost use Rattle.tilemap_setup.specs.Setup.{setup_of, first_pixel, window_of};
ghost use Rattle.tilemap_entries.specs.Bounds.{SetupBounds};

use state::Tiles;
use surface::LineNumber;
use tilemap_entries::TileSetup;

// A clip coordinate that counts pairs of pixels.
#[derive(Clone, Copy)]
pub struct PairCount(pub u8);

// What of a line the clip shows, in pixels, both ends inside; nothing where not on.
#[derive(Clone, Copy)]
pub struct Window {
    pub on: bool,
    pub left: usize,
    pub right: usize,
}

fn first_pixel(p: PairCount) -> usize
    ensures { (result ≡ first_pixel p) × (result < 512) }
{
    usize::from(p.0) * 2
}

pub fn window_of(t: Tiles, clip: &[u8; 4], l: LineNumber) -> Window
    ensures { result ≡ window_of t clip.now l }
{
    let left = first_pixel(PairCount(clip[0]));
    let right = first_pixel(PairCount(clip[1])) + 1;
    let top = usize::from(clip[2]);
    let bottom = usize::from(clip[3]);
    let on = state_bits::tilemap_on(t);
    let shown = surface::is_inside(l.0, top, bottom);
    Window {
        on: on & shown,
        left,
        right,
    }
}

// The address that $6E or $6F gives.
fn address_of(v: u8) -> usize
    requires { v < 64 }
    ensures { (result ≡ v * 256) × (result < 16384) }
{
    usize::from(v) * 256
}

// The setup of a lawful state: its bounds are those of a lawful state's bytes.
pub fn setup_of(t: Tiles, on: bool) -> TileSetup
    requires { (t.xhigh ≤ 3) × (t.map < 64) × (t.definitions < 64) }
    ensures { (result ≡ setup_of t on) × (SetupBounds result) }
{
    let columns80 = state_bits::columns80(t);
    let single = state_bits::one_byte_entries(t);
    let attribute = usize::from(t.attribute);
    let map = address_of(t.map);
    let definitions = address_of(t.definitions);
    let x = state_bits::x_offset(t);
    let y = usize::from(t.y);
    TileSetup {
        columns80,
        single,
        attribute,
        ula: on,
        map,
        definitions,
        x,
        y,
    }
}
