// Writing into targets of four lengths, from a lawful state and from one that is not.
use host::marks::{MARK, untouched};
use host::records::{OLD_RECORD, RECORD};
use std::io;

fn write(rt: &impl Print, border: u8, target: &mut [u8]) -> io::Result<()> {
    let mut s = state::reset();
    s.ports.border = border;
    let r = record::write_record(s, target);
    let left = if untouched(target) {
        "untouched"
    } else {
        "written"
    };
    println!(rt;
        "write border {border} into {}: {} {left}",
        target.len(),
        u8::from(r)
    )
}

pub fn print_refused(rt: &impl Print) -> io::Result<()> {
    let mut long = [MARK; RECORD + 1];
    write(rt, 6, &mut [MARK; OLD_RECORD])?;
    write(rt, 6, &mut [MARK; RECORD - 1])?;
    write(rt, 6, &mut [MARK; RECORD])?;
    write(rt, 6, &mut long)?;
    write(rt, 8, &mut [MARK; RECORD])?;
    write(rt, 8, &mut long)
}
