// Screen values of a dozen colours, the reset state's fields, and what is lawful at each bound's edge and one past it.
#![tactic(auto)]

mod edges;
mod fields;

use reply::reply_of;
use std::io;

fn print_screen(rt: &impl Print, colour: u32) -> io::Result<()> {
    let s = colour::screen_value(colour);
    println!(rt;
        "screen {colour}: {} {:06x}",
        u8::from(reply_of(s)),
        s.unwrap_or(0)
    )
}

// The eight levels of blue, one of green, two that the paper names, and the first number that is no colour.
fn main(rt: HostRuntime) -> io::Result<()> {
    for colour in [0, 1, 2, 3, 4, 5, 6, 7, 8, 455, 511, 512] {
        print_screen(&rt, colour)?;
    }
    fields::print_fields(&rt, state::reset())?;
    edges::print_edges(&rt)
}
