// What the versions of a record differ in: their number, their length, and how far the parts after $33 stand. Functions, not methods or a
// From of Version, since those stand in its crate, and it is a rule that record_layout has no code but the types.
ghost use Rattle.std.specs.Prelude.{◌≡◌, ◌+◌, ◌≤◌};
ghost use Rattle.record_layout.specs.declared.Version.TheVariants.{Version1};
ghost use Rattle.record_layout.specs.Version.{version_number, other, added as added_bytes};
ghost use Rattle.record_layout.specs.Record.{following, head_of, record_length, version_of};

use crate::places;
use record_layout::Version;

// How many bytes a version has between $33 and the ULA clip.
pub fn added(v: Version) -> usize
    ensures { (result ≡ added_bytes v) × (result ≤ 2) }
{
    match v {
        Version::Version1 => 0,
        Version::Version2 => 2,
    }
}

// The place in a version of a part that stands after $33, or the length, by that in version 1.
pub fn in_version(v: Version, place: usize) -> usize
    requires { place ≤ record_length Version1 }
    ensures { result ≡ place + added_bytes v }
{
    place + added(v)
}

// The bytes of a record in all.
pub fn length_of(v: Version) -> usize
    ensures { result ≡ record_length v }
{
    in_version(v, places::LENGTH)
}

// The number of bytes after the two that say how many.
pub fn following_of(v: Version) -> usize
    ensures { result ≡ following v }
{
    length_of(v) - 2
}

// The version whose records are so long; version 2 where none is.
pub fn version_of(length: usize) -> Version
    ensures { result ≡ version_of length }
{
    if length == places::LENGTH {
        Version::Version1
    } else {
        Version::Version2
    }
}

// The byte by which a record states its version.
pub fn number_of(v: Version) -> u8
    ensures { result ≡ version_number v }
{
    match v {
        Version::Version1 => 1,
        Version::Version2 => 2,
    }
}

// The head of a record: the number of bytes following and the version.
pub fn head_of(v: Version) -> [u8; 3]
    ensures { result ≡ head_of v }
{
    match v {
        Version::Version1 => [8, 100, 1],
        Version::Version2 => [8, 102, 2],
    }
}

// The version that a record is moved to.
pub fn other_version(v: Version) -> Version
    ensures { result ≡ other v }
{
    match v {
        Version::Version1 => Version::Version2,
        Version::Version2 => Version::Version1,
    }
}
