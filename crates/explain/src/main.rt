// explain RECORD: what is wrong with a record, in a line on standard output that names the byte, what it is and what it has to be; of a
// record that is good its version. What keeps the file from being read is said on standard error.
#![tactic(auto)]

use host::arguments;
use host::complaints::Complaints;
use host::files::read_argument;
use host::records::{OLD_RECORD, RECORD_FILE};
use record_fields::Fault;
use std::io;

fn explain(rt: &impl Print, record: &[u8]) -> io::Result<()> {
    let judgement = record::judge_record(record);
    let reply = judgement.reply;
    if reply.is_done() {
        let version = if record.len() == OLD_RECORD { 1 } else { 2 };
        println!(rt; "nothing to mend: a record of version {version}")
    } else {
        let fault = Fault {
            reply,
            place: judgement.place,
            length: record.len(),
        };
        println!(rt; "{fault}")
    }
}

// The first argument is the program's own name.
fn main(rt: HostRuntime) -> io::Result<()> {
    let complaints = Complaints {
        err: rt.stderr(),
        program: b"explain",
    };
    if arguments::count(&rt) != 2 {
        return complaints.say("give RECORD");
    }
    let mut record = [0u8; RECORD_FILE];
    match read_argument(&rt, &complaints, 1, &mut record)? {
        Some(n) => explain(&rt, &record[..n]),
        None => Ok(()),
    }
}
