// The clips and the ULAplus registers of the state in a record.
ghost use Rattle.std.specs.Prelude.{◌≡◌, ◌+◌, ◌≤◌, length};
ghost use Rattle.record_layout.specs.Fields.{byte, row_at};
ghost use Rattle.record_layout.specs.Places.{ula_first_place};
ghost use Rattle.record_layout.specs.Record.{state_as};

use record_layout::Version;
use record_places::{in_version, places};

pub fn plus_at(b: &[u8], v: Version) -> [u8; 64]
    requires { ula_first_place v ≤ length b.now }
    ensures { result ≡ (state_as v b.now).plus }
{
    let first = in_version(v, places::PLUS);
    let mut registers = [0u8; 64];
    registers.copy_from_slice(&b[first..first + 64]);
    registers
}

fn four_at(b: &[u8], at: usize) -> [u8; 4]
    requires { at + 4 ≤ length b.now }
    ensures { result ≡ row_at byte 4 b.now at }
{
    [b[at], b[at + 1], b[at + 2], b[at + 3]]
}

// Not one function with `tile_clip_at`, which would be no plainer: `four_at` has what they share, and each promises a field of its own.
pub fn ula_clip_at(b: &[u8], v: Version) -> [u8; 4]
    requires { ula_first_place v ≤ length b.now }
    ensures { result ≡ (state_as v b.now).ulaclip }
{
    four_at(b, in_version(v, places::ULA_CLIP))
}

pub fn tile_clip_at(b: &[u8], v: Version) -> [u8; 4]
    requires { ula_first_place v ≤ length b.now }
    ensures { result ≡ (state_as v b.now).tileclip }
{
    four_at(b, in_version(v, places::TILE_CLIP))
}
