// The bytes of a moved record. All but its head and the ULA's offsets stand in the record moved from.
ghost use Rattle.std.specs.Prelude.{◌≡◌, true, length};
ghost use Rattle.record_layout.specs.Record.{record_in, record_length, accepted, state_as};
ghost use Rattle.record_moves.specs.Moves.{pairs_agree};

use lists::put;
use record_layout::Version;
use record_places::{added, head_of, in_version, places};

// The ULA's offsets are those of LoRes; a version without them has those of LoRes in their places.
pub fn pairs_agree(b: &[u8], v: Version) -> bool
    requires { length b.now ≡ record_length v }
    ensures { result ≡ pairs_agree (state_as v b.now) }
{
    let u = record_groups::ula_at(b, v);
    (u.x == u.loresx) & (u.y == u.loresy)
}

// The record of the same state in version w. Where that version has the ULA's offsets, LoRes's stand for them.
pub fn put_in(b: &[u8], v: Version, w: Version, target: &mut [u8])
    requires { (length b.now ≡ record_length v) × (accepted v b.now ≡ true) × (pairs_agree (state_as v b.now) ≡ true) × (length target.old ≡ record_length w) }
    ensures { target.new ≡ record_in w (state_as v b.now) }
{
    let head = head_of(w);
    let pair = places::LORES_X;
    let end = pair + added(w);
    let rest = in_version(v, places::ULA_CLIP);
    put(target, places::COUNT, &head);
    put(target, places::PARTS, &b[places::PARTS..places::ULA_CLIP]);
    put(target, places::ULA_CLIP, &b[pair..end]);
    put(target, in_version(w, places::ULA_CLIP), &b[rest..b.len()]);
}
