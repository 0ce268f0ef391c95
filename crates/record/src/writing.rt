// Record writing: 3, then 4.
ghost use Rattle.std.specs.Prelude.{◌≡◌, cond, eqb};
ghost use Rattle.reply.specs.declared.Reply.TheVariants.{BufferLength};
ghost use Rattle.state.specs.Lawful.{lawful_reply};
ghost use Rattle.record_layout.specs.Version.{current};
ghost use Rattle.record_layout.specs.Record.{record_length, write_reply, written_in};

use record_layout::Version;
use record_parts::put_record;
use record_places::length_of;
use reply::{Reply, first_of, length_reply};
use state::{State, lawful_reply};

// What refuses a writing, the length before the state.
fn write_reply(length: usize, s: State) -> Reply
    ensures { result ≡ cond (eqb length (record_length current)) (lawful_reply s) BufferLength }
{
    let long = length_reply(length, length_of(Version::Version2), Reply::BufferLength);
    let sound = lawful_reply(s);
    first_of(long, sound)
}

// The record of a lawful state, or reply 3 or 4 and the target as it was.
pub fn write_record(state: State, target: &mut [u8]) -> Reply
    ensures { (result ≡ write_reply target.old state) × (target.new ≡ written_in target.old state) }
{
    let r = write_reply(target.len(), state);
    if r.is_done() {
        put_record(state, target);
    }
    r
}
