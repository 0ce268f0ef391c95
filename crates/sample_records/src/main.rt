// Reads records of both versions and writes them back, prints the fields of three that were written out by hand, then damages one
// byte or the length of these and prints the replies. own3.rec is own1.rec in version 2 with other values of $26 and $27, and
// own4.rec is own2.rec moved up.
#![tactic(auto)]

mod damaged;
mod fields;
mod judged;
mod readers;
mod refused;

use judged::print_file;
use std::io;

// Those of an outside emulator.
const OUTSIDE: [&str; 20] = [
    "00.rec", "02.rec", "04.rec", "06.rec", "08.rec", "10.rec", "12.rec", "14.rec", "16.rec",
    "18.rec", "20.rec", "22.rec", "24.rec", "26.rec", "28.rec", "30.rec", "32.rec", "34.rec",
    "36.rec", "38.rec",
];

fn main(rt: HostRuntime) -> io::Result<()> {
    for name in OUTSIDE {
        print_file(&rt, name)?;
    }
    print_file(&rt, "own1.rec")?;
    fields::print_fields(&rt, "own1.rec")?;
    print_file(&rt, "own2.rec")?;
    fields::print_fields(&rt, "own2.rec")?;
    print_file(&rt, "own3.rec")?;
    fields::print_fields(&rt, "own3.rec")?;
    print_file(&rt, "own4.rec")?;
    readers::print_readers(&rt, "own1.rec")?;
    readers::print_readers(&rt, "own3.rec")?;
    damaged::print_damaged(&rt)?;
    refused::print_refused(&rt)
}
