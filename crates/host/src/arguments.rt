// What a program is called with.
ghost use Rattle.std.specs.Prelude.{◌≤◌, length};

use std::env::FillError;
use std::rt::Env;

// A longer argument is read as an empty one: no path is longer.
pub const LONGEST: usize = 4096;

// No program takes so many arguments, its own name among them.
pub const MOST: usize = 6;

// How many arguments there are, the program's own name among them; `MOST` where there are more.
pub fn count(rt: &impl Env) -> usize
    ensures { result ≤ 6 }
{
    let mut none = [0u8; 0];
    for i in 0..MOST {
        if let Err(FillError::NotPresent) = rt.arg(i, &mut none) {
            return i;
        }
    }
    MOST
}

// Puts an argument at the start of a buffer and tells its length, 0 where it is missing or longer than the buffer.
pub fn argument(rt: &impl Env, i: usize, buffer: &mut [u8]) -> usize
    ensures { result ≤ length buffer.new }
{
    rt.arg(i, buffer).unwrap_or(0)
}
