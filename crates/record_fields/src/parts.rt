// The part of a record that a place stands in.
ghost use Rattle.std.specs.Prelude.{◌≡◌, ◌<◌};
ghost use Rattle.record_layout.specs.Version.{current};
ghost use Rattle.record_layout.specs.Record.{record_length};
ghost use Rattle.record_fields.specs.Parts.{part_ends, part_at, current_place};

use record_layout::Version;
use record_places::{added, in_version, places};

// The place in version 2 of what stands at a place of a version.
pub fn current_place(place: usize, v: Version) -> usize
    requires { place < record_length current }
    ensures { result ≡ current_place v place }
{
    if place < in_version(v, places::ULA_CLIP) {
        place
    } else {
        place + (added(Version::Version2) - added(v))
    }
}

// Where the 36 parts of version 2 end.
fn part_ends() -> [usize; 36]
    ensures { result ≡ part_ends }
{
    [
        4, 5, 6, 7, 8, 9, 10, 11, 12, 13, 14, 15, 16, 17, 18, 19, 20, 21, 22, 23, 27, 31, 32, 33,
        34, 35, 36, 37, 38, 39, 40, 104, 616, 1128, 1640, 2152,
    ]
}

// The number of the part, counted from 0, that a place of version 2 stands in; 36 where it is past the end.
pub fn part_at(place: usize) -> usize
    ensures { result ≡ part_at place }
{
    let ends = part_ends();
    ends.iter().position(|end| place < *end).unwrap_or(36)
}
