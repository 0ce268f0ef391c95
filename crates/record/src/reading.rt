// Record reading.
ghost use Rattle.std.specs.Prelude.{◌≡◌};
ghost use Rattle.record_layout.specs.Record.{judged, judged_record, read_as, read_record, read_old, read_current};

use record_layout::{Judgement, RecordRead, Version};
use record_parts::state_at;
use record_places::version_of;
use record_stages::judge;
use state::reset;

// The state in a record of a lawful state in a version; or reply 16, 17 or 18, its place, and the reset state.
pub fn read_as(bytes: &[u8], v: Version) -> RecordRead
    ensures { result ≡ read_as v bytes.now }
{
    let judgement = judge(bytes, v);
    let reply = judgement.reply;
    let place = judgement.place;
    if reply.is_done() {
        let state = state_at(bytes, v);
        RecordRead {
            reply,
            place,
            state,
        }
    } else {
        let state = reset();
        RecordRead {
            reply,
            place,
            state,
        }
    }
}

// What `read_record` replies and tells, without the state.
pub fn judge_record(bytes: &[u8]) -> Judgement
    ensures { result ≡ judged_record bytes.now }
{
    judge(bytes, version_of(bytes.len()))
}

// The reader of version 2: it takes records of both versions, an old one as if it were moved up.
pub fn read_record(bytes: &[u8]) -> RecordRead
    ensures { result ≡ read_record bytes.now }
{
    read_as(bytes, version_of(bytes.len()))
}

// The reader of version 1: to it a record of version 2 is 17. It and `read_current` are calls of users, whose names may not change.
pub fn read_old(bytes: &[u8]) -> RecordRead
    ensures { result ≡ read_old bytes.now }
{
    read_as(bytes, Version::Version1)
}

// The reader of the version that is written alone, for what is written back into the same bytes.
pub fn read_current(bytes: &[u8]) -> RecordRead
    ensures { result ≡ read_current bytes.now }
{
    read_as(bytes, Version::Version2)
}
