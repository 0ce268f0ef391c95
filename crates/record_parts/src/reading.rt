// The state in the bytes of a record.
ghost use Rattle.std.specs.Prelude.{◌≡◌, length};
ghost use Rattle.record_layout.specs.Record.{record_length, state_as};

use record_colours::colours_at;
use record_groups::{
    frame_at, palette_at, plus_at, ports_at, tile_clip_at, tiles_at, turns_at, ula_at, ula_clip_at,
};
use record_layout::Version;
use record_places::{added, places};
use state::State;

// The state in the bytes, read in a version, lawful or not. The caller has judged the number of bytes.
pub fn state_at(b: &[u8], v: Version) -> State
    requires { length b.now ≡ record_length v }
    ensures { result ≡ state_as v b.now }
{
    let ula = ula_at(b, v);
    let tiles = tiles_at(b);
    let palette = palette_at(b, v);
    let turns = turns_at(b, v);
    let ports = ports_at(b, v);
    let frame = frame_at(b, v);
    let ulaclip = ula_clip_at(b, v);
    let tileclip = tile_clip_at(b, v);
    let plus = plus_at(b, v);
    let n = added(v);
    let ulafirst = colours_at(b, places::ULA_FIRST + n);
    let ulasecond = colours_at(b, places::ULA_SECOND + n);
    let tilefirst = colours_at(b, places::TILE_FIRST + n);
    let tilesecond = colours_at(b, places::TILE_SECOND + n);
    State {
        ula,
        tiles,
        palette,
        turns,
        ports,
        frame,
        ulaclip,
        tileclip,
        plus,
        ulafirst,
        ulasecond,
        tilefirst,
        tilesecond,
    }
}
