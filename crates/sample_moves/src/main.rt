// Records moved up and back into marked targets: the reply, its place, and what is in the target then. old.rec is of version 1 and new.rec the
// same moved up, both written out by hand; other.rec is of version 2, with values of $26 and $27 that are not those of $32 and $33.
#![tactic(auto)]

use host::files::bytes_of;
use host::marks::{MARK, untouched};
use host::records::{OLD_RECORD, RECORD, RECORD_FILE};
use record_layout::Judgement;
use std::io;
use std::rt::Files;

// Whether a target is the bytes of a file.
fn is_file(rt: &impl Files, target: &[u8], name: &str) -> io::Result<bool> {
    let mut bytes = [0u8; RECORD_FILE];
    let n = bytes_of(rt, name.as_bytes(), &mut bytes)?;
    Ok(target == &bytes[..n])
}

// The reply and its place, and what is in the target: the mark, the record that is expected, or another.
fn print_answer(
    rt: &(impl Print + Files),
    judgement: Judgement,
    target: &[u8],
    expected: &str,
) -> io::Result<()> {
    print!(rt; "{} at {}", u8::from(judgement.reply), judgement.place)?;
    if untouched(target) {
        println!(rt; " untouched")
    } else if is_file(rt, target, expected)? {
        println!(rt; " as {expected}")
    } else {
        println!(rt; " otherwise")
    }
}

// Each record of a name is moved into the target, one way or the other.
fn print_moves<M: Fn(&[u8], &mut [u8]) -> Judgement>(
    rt: &(impl Print + Files),
    word: &str,
    names: &[&str],
    target: &mut [u8],
    move_into: M,
    expected: &str,
) -> io::Result<()>
    requires { M.IsAlwaysCallable move_into }
{
    for name in names {
        let mut bytes = [0u8; RECORD_FILE];
        let n = bytes_of(rt, name.as_bytes(), &mut bytes)?;
        let judgement = move_into(&bytes[..n], target);
        print!(rt; "{word} {name} into {}: ", target.len())?;
        print_answer(rt, judgement, target, expected)?;
    }
    Ok(())
}

fn up(rt: &(impl Print + Files), names: &[&str], target: &mut [u8]) -> io::Result<()> {
    let move_into = |from: &[u8], to: &mut [u8]| record_moves::move_up(from, to);
    print_moves(rt, "up", names, target, move_into, "new.rec")
}

fn back(rt: &(impl Print + Files), names: &[&str], target: &mut [u8]) -> io::Result<()> {
    let move_into = |from: &[u8], to: &mut [u8]| record_moves::move_back(from, to);
    print_moves(rt, "back", names, target, move_into, "old.rec")
}

// new.rec, whose $32 is 240 and $33 101, with other bytes at the places of $26, $27 and the border, written out as the files are.
fn back_with(rt: &(impl Print + Files), x: u8, y: u8, border: u8) -> io::Result<()> {
    let mut bytes = [0u8; RECORD];
    bytes_of(rt, b"new.rec", &mut bytes)?;
    bytes[21] = x;
    bytes[22] = y;
    bytes[35] = border;
    let mut target = [MARK; OLD_RECORD];
    let r = record_moves::move_back(&bytes, &mut target);
    print!(rt; "back new.rec with $26 {x}, $27 {y}, border {border}: ")?;
    print_answer(rt, r, &target, "old.rec")
}

fn main(rt: HostRuntime) -> io::Result<()> {
    let mut old = [MARK; OLD_RECORD];
    let mut new = [MARK; RECORD];

    // Targets as long as the record moved from: 3, before all else.
    up(&rt, &["old.rec", "missing"], &mut old)?;
    back(&rt, &["new.rec", "other.rec", "missing"], &mut new)?;

    // What is refused comes before what is moved, since it leaves the target; a file that is missing is no record.
    up(
        &rt,
        &["other.rec", "new.rec", "missing", "old.rec"],
        &mut new,
    )?;
    back(
        &rt,
        &["other.rec", "old.rec", "missing", "new.rec"],
        &mut old,
    )?;
    for (x, y, border) in [
        (240, 101, 5),
        (241, 101, 5),
        (240, 100, 5),
        (240, 192, 5),
        (241, 100, 8),
    ] {
        back_with(&rt, x, y, border)?;
    }
    Ok(())
}
