// preview SCREEN: a screen file in the standard colours of a Spectrum; preview RECORD SCREEN: in a member's state; preview RECORD
// ULA-BANK TILE-BANK: a member's state and banks; preview RECORD ULA-BANK TILE-BANK TRACE: the same, with each line drawn by the writes
// of a trace up to it; with no argument the example screen. The whole picture goes to standard output as a binary PPM. Nothing is
// written there before every line is known to draw; what is wrong is said on standard error.
#![tactic(auto)]

mod banks;
mod output;
mod screens;

use host::arguments;
use host::complaints::Complaints;
use output::{NO_ENTRIES, Scene};
use std::io;

fn draw_example<E: Print>(rt: &impl Print, complaints: &Complaints<E>) -> io::Result<()> {
    let ula = example_screen::example_ula();
    let tile = example_screen::example_tiles();
    let scene = Scene {
        state: example_screen::example_state(),
        ula: &ula,
        tile: &tile,
        trace: &NO_ENTRIES,
    };
    output::show(rt, complaints, &scene)
}

// The first argument is the program's own name.
fn main(rt: HostRuntime) -> io::Result<()> {
    let complaints = Complaints {
        err: rt.stderr(),
        program: b"preview",
    };
    match arguments::count(&rt) {
        0 | 1 => draw_example(&rt, &complaints),
        2 => screens::draw_standard(&rt, &complaints),
        3 => screens::draw_with(&rt, &complaints),
        4 => banks::draw(&rt, &complaints, false),
        5 => banks::draw(&rt, &complaints, true),
        _ => complaints.say(
            "give no argument, or SCREEN, or RECORD SCREEN, or RECORD ULA-BANK TILE-BANK, or RECORD ULA-BANK TILE-BANK TRACE",
        ),
    }
}
