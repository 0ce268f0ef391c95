// The palettes that a line shows, by the bits that choose them.
ghost use Rattle.std.specs.Prelude.{◌≡◌, cond, ◌+◌, ◌≤◌};
ghost use Rattle.state_bits.specs.Bits.{ula_second_shown, tile_second_shown};
ghost use Rattle.record_layout.specs.declared.Version.TheVariants.{Version1};
ghost use Rattle.record_layout.specs.Version.{added};
ghost use Rattle.record_layout.specs.Record.{record_length};
ghost use Rattle.record_layout.specs.Places.{ula_first_place, ula_second_place, tile_first_place, tile_second_place};

use crate::places;
use crate::versions::in_version;
use record_layout::Version;
use state::{Palette, Tiles};

// The place of the second of two palettes where it is shown, else that of the first.
fn shown_place(v: Version, is_second: bool, first: usize, second: usize) -> usize
    requires { (first ≤ record_length Version1) × (second ≤ record_length Version1) }
    ensures { result ≡ cond is_second (second + added v) (first + added v) }
{
    in_version(v, if is_second { second } else { first })
}

// Where the ULA palette shown stands.
pub fn ula_place(p: Palette, v: Version) -> usize
    ensures { (result ≡ cond (ula_second_shown p) (ula_second_place v) (ula_first_place v)) × (result ≤ tile_second_place v) }
{
    let is_second = state_bits::ula_second_shown(p);
    shown_place(v, is_second, places::ULA_FIRST, places::ULA_SECOND)
}

// Where the tilemap palette shown stands.
pub fn tile_place(t: Tiles, v: Version) -> usize
    ensures { (result ≡ cond (tile_second_shown t) (tile_second_place v) (tile_first_place v)) × (result ≤ tile_second_place v) }
{
    let is_second = state_bits::tile_second_shown(t);
    shown_place(v, is_second, places::TILE_FIRST, places::TILE_SECOND)
}
