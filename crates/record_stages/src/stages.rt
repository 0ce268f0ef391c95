// Each stage asks for what the one before it has shown.
ghost use Rattle.std.specs.Prelude.{◌≡◌, false, ◌&&◌, ◌<◌, length};
ghost use Rattle.state.specs.Lawful.{all_colours};
ghost use Rattle.record_layout.specs.Places.{version_place};
ghost use Rattle.record_layout.specs.Record.{record_length, counted, versioned, sound, accepted, judged, state_as};

use record_faults::first_bad;
use record_layout::{Judgement, Version};
use record_places::{added, following_of, length_of, number_of, places};
use reply::Reply;
use state::lawful_registers;

fn has_count(b: &[u8]) -> bool
    ensures { result ≡ counted b.now }
{
    if b.len() < 2 {
        return false;
    }
    let following = usize::from(b[places::COUNT]) * 256 + usize::from(b[places::COUNT + 1]);
    let first = following_of(Version::Version1);
    let second = following_of(Version::Version2);
    (b.len() == 2 + following) & ((following == first) | (following == second))
}

fn has_version(b: &[u8], v: Version) -> bool
    requires { version_place < length b.now }
    ensures { result ≡ versioned v b.now }
{
    (b.len() == length_of(v)) & (b[places::VERSION] == number_of(v))
}

fn has_palettes(b: &[u8], v: Version) -> bool
    requires { length b.now ≡ record_length v }
    ensures { result ≡ (all_colours (state_as v b.now).ulafirst && all_colours (state_as v b.now).ulasecond
        && all_colours (state_as v b.now).tilefirst && all_colours (state_as v b.now).tilesecond) }
{
    let n = added(v);
    let first = record_colours::is_palette(b, places::ULA_FIRST + n);
    let second = record_colours::is_palette(b, places::ULA_SECOND + n);
    let third = record_colours::is_palette(b, places::TILE_FIRST + n);
    let fourth = record_colours::is_palette(b, places::TILE_SECOND + n);
    first & second & third & fourth
}

// The fields are judged where they stand, and no state is made. The two flags are judged as bytes, since a state keeps them
// as truth values.
fn has_bounds(b: &[u8], v: Version) -> bool
    requires { length b.now ≡ record_length v }
    ensures { result ≡ sound v b.now }
{
    let n = added(v);
    let held = b[places::HELD + n] <= 1;
    let plus = b[places::PLUS_ON + n] <= 1;
    let u = record_groups::ula_at(b, v);
    let p = record_groups::palette_at(b, v);
    let t = record_groups::tiles_at(b);
    let turns = record_groups::turns_at(b, v);
    let ports = record_groups::ports_at(b, v);
    let registers = lawful_registers(u, p, t, turns, ports);
    let palettes = has_palettes(b, v);
    held & plus & (registers & palettes)
}

// The bytes are the record of a lawful state in a version.
fn is_record(b: &[u8], v: Version) -> bool
    ensures { result ≡ accepted v b.now }
{
    has_count(b) && has_version(b, v) && has_bounds(b, v)
}

// What bytes that are no such record are refused for: 16, 17, 18.
fn refusal_of(b: &[u8], v: Version) -> Reply
    requires { accepted v b.now ≡ false }
    ensures { result ≡ (judged v b.now).reply }
{
    if !has_count(b) {
        Reply::WrongCount
    } else if !has_version(b, v) {
        Reply::WrongVersion
    } else {
        Reply::BadField
    }
}

// What the bytes are refused for as a record of a version. Good ones meet one test and no place is looked for, so that a line is drawn no
// slower for the three replies.
pub fn reply_as(b: &[u8], v: Version) -> Reply
    ensures { result ≡ (judged v b.now).reply }
{
    if is_record(b, v) {
        Reply::Done
    } else {
        refusal_of(b, v)
    }
}

// The place that the reply tells. Fields are walked over only where one is bad.
fn place_of(b: &[u8], v: Version, reply: Reply) -> usize
    requires { reply ≡ (judged v b.now).reply }
    ensures { result ≡ (judged v b.now).place }
{
    match reply {
        Reply::BadField => first_bad(b, v),
        Reply::WrongVersion => places::VERSION,
        _ => places::COUNT,
    }
}

// What the bytes are refused for as a record of a version, and where.
pub fn judge(b: &[u8], v: Version) -> Judgement
    ensures { result ≡ judged v b.now }
{
    let reply = reply_as(b, v);
    let place = place_of(b, v, reply);
    Judgement { reply, place }
}
