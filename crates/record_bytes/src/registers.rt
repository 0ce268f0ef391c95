// The bytes of a record's registers, in the order of the layout.
ghost use Rattle.std.specs.Prelude.{◌≡◌, take, drop};
ghost use Rattle.record_layout.specs.Parts.{bytes_of};
ghost use Rattle.record_layout.specs.Layout.{after_scrolls};
ghost use Rattle.record_layout.specs.Version.{current};
ghost use Rattle.record_layout.specs.Places.{ula_clip_place};
ghost use Rattle.record_layout.specs.Record.{record_of};

use record_layout::Version;
use record_places::head_of;
use state::State;

// The number of bytes following, the version, and the 20 registers before the clips.
pub fn before_clips(s: State) -> [u8; 23]
    ensures { result ≡ take (ula_clip_place current) (record_of s) }
{
    let head = head_of(Version::Version2);
    [
        head[0],
        head[1],
        head[2],
        s.ula.transparent,
        s.ula.layers,
        s.ula.peripheral,
        s.palette.control,
        s.palette.index,
        s.palette.mask,
        s.ula.fallback,
        s.tiles.transparent,
        s.ula.control,
        s.tiles.control,
        s.tiles.attribute,
        s.tiles.xhigh,
        s.tiles.xlow,
        s.tiles.y,
        s.tiles.map,
        s.tiles.definitions,
        s.ula.loresx,
        s.ula.loresy,
        s.ula.x,
        s.ula.y,
    ]
}

// The nine parts after the clips.
pub fn after_clips(s: State) -> [u8; 9]
    ensures { result ≡ bytes_of (take 9 (drop 2 after_scrolls)) s }
{
    [
        s.turns.ula,
        s.turns.tiles,
        u8::from(s.palette.held),
        s.palette.half,
        s.ports.border,
        s.ports.timex,
        s.ports.select,
        u8::from(s.ports.plus),
        s.frame,
    ]
}
