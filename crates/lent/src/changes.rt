// The calls that change a lent record. They take version 2 alone: the changed record goes into the same bytes.
ghost use Rattle.std.specs.Prelude.{◌≡◌, true, length};
ghost use Rattle.state.specs.Lawful.{lawful_state};
ghost use Rattle.record_layout.specs.Version.{current};
ghost use Rattle.record_layout.specs.Record.{record_length};
ghost use Rattle.lent.specs.Lent.{lent_answer, lent_after, reset_reply, reset_in};
ghost use Rattle.lent.specs.Calls.{changed};

use record_layout::Version;
use register_answers::accept;
use reply::Reply;
use state::{Answer, State};

// What can be done to a state: the next frame, a write of a register (number, value), a write of a port.
#[derive(Clone, Copy)]
pub enum Change {
    NextFrame,
    Register(u8, u8),
    Port(u16, u8),
}

// The change of a state that is judged: it is not judged again.
fn apply(s: State, c: Change) -> Answer
    requires { lawful_state s ≡ true }
    ensures { result ≡ changed c s }
{
    match c {
        Change::NextFrame => accept(frame::advance(s)),
        Change::Register(n, v) => register_tables::write_numbered(s, n, v),
        Change::Port(n, v) => register_ports::write_at(s, n, v),
    }
}

// The record of an answer's state in the place of the lent one; a refusal leaves it.
fn store(a: Answer, bytes: &mut [u8])
    requires { length bytes.old ≡ record_length current }
    ensures { bytes.new ≡ lent_after bytes.old a }
{
    let reply = a.reply;
    if reply.is_done() {
        record_parts::put_record(a.state, bytes);
    }
}

// The record of the changed state, or the reply that refuses the record or the change and leaves the bytes.
pub fn change_record(bytes: &mut [u8], c: Change) -> Reply
    ensures { (result ≡ (lent_answer (changed c) bytes.old).reply)
        × (bytes.new ≡ lent_after bytes.old (lent_answer (changed c) bytes.old)) }
{
    let read = record::read_current(bytes);
    let r = read.reply;
    if r.is_done() {
        let a = apply(read.state, c);
        // Kept here, since an answer that is asked again after it is handed on is copied.
        let reply = a.reply;
        store(a, bytes);
        reply
    } else {
        r
    }
}

// The record of the reset state, or reply 3 where the bytes are not as many as a record has.
pub fn reset_record(bytes: &mut [u8]) -> Reply
    ensures { (result ≡ reset_reply bytes.old) × (bytes.new ≡ reset_in bytes.old) }
{
    if bytes.len() == record_places::length_of(Version::Version2) {
        record_parts::put_record(state::reset(), bytes);
        Reply::Done
    } else {
        Reply::BufferLength
    }
}
