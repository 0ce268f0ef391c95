// The screen values of the 512 colours.
ghost use Rattle.std.specs.Prelude.{◌≡◌, ◌≤◌};
ghost use Rattle.colour.specs.Screen.{screen_of, screen_answer};

use crate::table::SCREEN;
use reply::Reply;

fn entry(c: usize) -> u32
    requires { c ≤ 511 }
    ensures { result ≡ screen_of c }
{
    SCREEN[c]
}

// A colour's value for a screen, or the reply that refuses it.
pub fn screen_value(colour: u32) -> Result<u32, Reply>
    ensures { result ≡ screen_answer colour }
{
    if colour <= 511 {
        Ok(entry(colour as usize))
    } else {
        Err(Reply::OutOfBounds)
    }
}
