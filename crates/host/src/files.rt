// Whole files by name. No contract can say what a file holds.
ghost use Rattle.std.specs.Prelude.{◌≤◌, length, IfOk, IfSome};

use crate::arguments;
use crate::complaints::Complaints;
use std::rt::{Env, Files};
use std::{fs, io};

// Reads into a buffer, as far as either goes, and tells how many bytes are at its start. Where reading fails, some of the buffer
// may have been written. How much a read gives is not known before, so no iterator counts these turns.
pub fn fill<R: io::Read>(from: &mut R, buffer: &mut [u8]) -> io::Result<usize>
    ensures { IfOk result (λ n. n ≤ length buffer.new) }
{
    let mut done = 0;
    while done < buffer.len() {
        let n = from.read(&mut buffer[done..])?;
        if n == 0 {
            break;
        }
        done += n;
    }
    Ok(done)
}

// Reads a file into a buffer, as far as either goes, and tells how many bytes are at its start, or that it cannot be opened: a file
// that must have n bytes is read into a buffer of n + 1, where a longer one shows. A path that is not UTF-8 names no file. Where
// reading fails, some of the buffer may have been written.
pub fn read_file(rt: &impl Files, path: &[u8], buffer: &mut [u8]) -> io::Result<Option<usize>>
    ensures { IfOk result (λ read. IfSome read (λ n. n ≤ length buffer.new)) }
{
    let Ok(path) = str::from_utf8(path) else {
        return Ok(None);
    };
    let Ok(mut file) = fs::open(rt, path) else {
        return Ok(None);
    };
    let n = fill(&mut file, buffer)?;
    Ok(Some(n))
}

// Reads the file that argument i of a program names; that it cannot be opened is said on standard error. Where reading or saying
// fails, some of the buffer may have been written.
pub fn read_argument<E: Print>(
    rt: &(impl Env + Files),
    complaints: &Complaints<E>,
    i: usize,
    buffer: &mut [u8],
) -> io::Result<Option<usize>>
    ensures { IfOk result (λ read. IfSome read (λ n. n ≤ length buffer.new)) }
{
    let mut path = [0u8; arguments::LONGEST];
    let length = arguments::argument(rt, i, &mut path);
    let read = read_file(rt, &path[..length], buffer)?;
    if read.is_none() {
        complaints.missing(&path[..length])?;
    }
    Ok(read)
}

// How many bytes of a file are in the buffer, 0 where it cannot be opened. Where reading fails, some of the buffer may have been
// written.
pub fn bytes_of(rt: &impl Files, path: &[u8], buffer: &mut [u8]) -> io::Result<usize>
    ensures { IfOk result (λ n. n ≤ length buffer.new) }
{
    let read = read_file(rt, path, buffer)?;
    Ok(read.unwrap_or(0))
}
