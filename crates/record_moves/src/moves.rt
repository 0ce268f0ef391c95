// Moving a record: 3, then what the record is refused for, and 15 where the version moved to cannot say what the record says.
ghost use Rattle.std.specs.Prelude.{◌≡◌, cond, [], ◌∷◌, length};
ghost use Rattle.reply.specs.Reply.{is_done};
ghost use Rattle.reply.specs.First.{first_of, first_hit};
ghost use Rattle.record_layout.specs.declared.Version.TheVariants.{Version1, Version2};
ghost use Rattle.record_layout.specs.Record.{told, judged};
ghost use Rattle.record_moves.specs.Moves.{pairs_reply, move_judged, moved_in};

use crate::bytes::{pairs_agree, put_in};
use record_layout::{Judgement, Version};
use record_places::{length_of, other_version};
use reply::{Reply, length_reply};

// What the record is refused for: 16, 17 or 18 with its place, then 15, which tells none.
fn judge_moved(b: &[u8], v: Version) -> Judgement
    ensures { result ≡ told (first_hit ((judged v b.now).reply ∷ pairs_reply v b.now ∷ [])) (judged v b.now).place }
{
    let judgement = record::judge(b, v);
    let reply = judgement.reply;
    if reply.is_done() {
        if pairs_agree(b, v) {
            judgement
        } else {
            Judgement {
                reply: Reply::PairsDiffer,
                place: judgement.place,
            }
        }
    } else {
        judgement
    }
}

// 3 for the target, which tells no place, before all that the record is refused for.
fn target_first(long: Reply, stored: Judgement) -> Judgement
    ensures { result ≡ told (first_of long stored.reply) (cond (is_done long) stored.place 0) }
{
    if long.is_done() {
        stored
    } else {
        Judgement {
            reply: long,
            place: 0,
        }
    }
}

// The record moved out of a version, or what refuses it and leaves the target.
fn move_record(b: &[u8], v: Version, target: &mut [u8]) -> Judgement
    ensures { (result ≡ move_judged v b.now (length target.old)) × (target.new ≡ moved_in v b.now target.old) }
{
    let w = other_version(v);
    let long = length_reply(target.len(), length_of(w), Reply::BufferLength);
    let stored = judge_moved(b, v);
    let answer = target_first(long, stored);
    let r = answer.reply;
    if r.is_done() {
        put_in(b, v, w, target);
    }
    answer
}

// A record of version 1 as the record of version 2 of the same state, whose $26 and $27 are its $32 and $33. This and `move_back` are calls
// of users, whose names may not change.
pub fn move_up(old: &[u8], target: &mut [u8]) -> Judgement
    ensures { (result ≡ move_judged Version1 old.now (length target.old)) × (target.new ≡ moved_in Version1 old.now target.old) }
{
    move_record(old, Version::Version1, target)
}

// A record of version 2 as the record of version 1 of the same state, which its $26 and $27 have to allow.
pub fn move_back(new: &[u8], target: &mut [u8]) -> Judgement
    ensures { (result ≡ move_judged Version2 new.now (length target.old)) × (target.new ≡ moved_in Version2 new.now target.old) }
{
    move_record(new, Version::Version2, target)
}
