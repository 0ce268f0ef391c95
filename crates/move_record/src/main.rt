// move_record up RECORD: an old record in version 2, which draws what it drew; move_record back RECORD: a record of version 2 in
// version 1, where that says all of it. The moved record goes to standard output; what is wrong is said on standard error, and
// nothing is written then.
#![tactic(auto)]

use host::arguments;
use host::complaints::Complaints;
use host::files::read_argument;
use host::records::{OLD_RECORD, RECORD, RECORD_FILE};
use record_fields::Fault;
use record_layout::Judgement;
use reply::Reply;
use std::io;

fn usage<E: Print>(complaints: &Complaints<E>) -> io::Result<()> {
    complaints.say("give up RECORD, or back RECORD")
}

// The moved record of a judgement, or what is wrong. A record of the other version may be a good one: what is wrong is the direction.
fn answer<E: Print>(
    rt: &impl Print,
    complaints: &Complaints<E>,
    judgement: Judgement,
    length: usize,
    moved: &[u8],
) -> io::Result<()> {
    let reply = judgement.reply;
    let place = judgement.place;
    match reply {
        Reply::Done => rt.write_all(moved),
        Reply::WrongVersion => {
            complaints.refused(reply)?;
            complaints.say("byte 2, version: 1 to move up, 2 to move back")
        }
        _ => record_fields::refused(
            complaints,
            Fault {
                reply,
                place,
                length,
            },
        ),
    }
}

fn move_up<E: Print>(rt: &impl Print, complaints: &Complaints<E>, old: &[u8]) -> io::Result<()> {
    let mut moved = [0u8; RECORD];
    let judgement = record_moves::move_up(old, &mut moved);
    answer(rt, complaints, judgement, old.len(), &moved)
}

fn move_back<E: Print>(rt: &impl Print, complaints: &Complaints<E>, new: &[u8]) -> io::Result<()> {
    let mut moved = [0u8; OLD_RECORD];
    let judgement = record_moves::move_back(new, &mut moved);
    answer(rt, complaints, judgement, new.len(), &moved)
}

// The first argument is the program's own name.
fn main(rt: HostRuntime) -> io::Result<()> {
    let complaints = Complaints {
        err: rt.stderr(),
        program: b"move_record",
    };
    if arguments::count(&rt) != 3 {
        return usage(&complaints);
    }
    let mut word = [0u8; arguments::LONGEST];
    let length = arguments::argument(&rt, 1, &mut word);
    let mut record = [0u8; RECORD_FILE];
    let Some(n) = read_argument(&rt, &complaints, 2, &mut record)? else {
        return Ok(());
    };
    match &word[..length] {
        b"up" => move_up(&rt, &complaints, &record[..n]),
        b"back" => move_back(&rt, &complaints, &record[..n]),
        _ => usage(&complaints),
    }
}
