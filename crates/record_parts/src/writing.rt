// A state's bytes put into a record: the registers, then the tables, each part right after the one before it.
ghost use Rattle.std.specs.Prelude.{◌≡◌, length, take, drop};
ghost use Rattle.lists.specs.Placed.{placed};
ghost use Rattle.record_layout.specs.Version.{current};
ghost use Rattle.record_layout.specs.Places.{plus_place};
ghost use Rattle.record_layout.specs.Record.{record_length, record_of};

use lists::put;
use record_bytes::{after_clips, before_clips};
use record_colours::put_colours;
use record_layout::Version;
use record_places::{added, places};
use state::State;

// The registers: all before the tables.
fn put_registers(s: State, target: &mut [u8])
    requires { length target.old ≡ record_length current }
    ensures { target.new ≡ placed target.old 0 (take (plus_place current) (record_of s)) }
{
    let n = added(Version::Version2);
    let first = before_clips(s);
    let last = after_clips(s);
    put(target, places::COUNT, &first);
    put(target, places::ULA_CLIP + n, &s.ulaclip);
    put(target, places::TILE_CLIP + n, &s.tileclip);
    put(target, places::ULA_TURN + n, &last);
}

// The ULAplus registers and the palettes, from the place where `put_registers` ends.
fn put_tables(s: State, target: &mut [u8])
    requires { length target.old ≡ record_length current }
    ensures { target.new ≡ placed target.old (plus_place current) (drop (plus_place current) (record_of s)) }
{
    let n = added(Version::Version2);
    put(target, places::PLUS + n, &s.plus);
    put_colours(target, places::ULA_FIRST + n, &s.ulafirst);
    put_colours(target, places::ULA_SECOND + n, &s.ulasecond);
    put_colours(target, places::TILE_FIRST + n, &s.tilefirst);
    put_colours(target, places::TILE_SECOND + n, &s.tilesecond);
}

// The state's record, lawful or not. The caller has judged the target's length.
pub fn put_record(s: State, target: &mut [u8])
    requires { length target.old ≡ record_length current }
    ensures { target.new ≡ record_of s }
{
    put_registers(s, target);
    put_tables(s, target);
}
