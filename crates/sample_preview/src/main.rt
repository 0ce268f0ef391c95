// The sums of the 256 lines of the example screen, which the preview draws: the stored ones are those of `bindings/rust/model`,
// an independent implementation, on the same screen.
#![tactic(auto)]

use line_sums::print_lines;
use std::io;

fn main(rt: HostRuntime) -> io::Result<()> {
    let ula = example_screen::example_ula();
    let tile = example_screen::example_tiles();
    print_lines(&rt, &ula, &tile, example_screen::example_state())
}
