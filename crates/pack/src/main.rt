// The packing program: a picture on standard input, and one line, `tiles N` or `refused N`.
#![tactic(auto)]

use host::files::fill;
use std::io;

// All of standard input is the picture: one byte more than a picture has is enough to see that there are too many.
fn main(rt: HostRuntime) -> io::Result<()> {
    let mut picture = [0u8; 40961];
    let n = fill(&mut rt.stdin(), &mut picture)?;
    let mut map = [0u8; 2560];
    let mut definitions = [0u8; 8192];
    match packer::pack(&picture[..n], 256, 0, &mut map, &mut definitions) {
        Ok(tiles) => println!(rt; "tiles {tiles}"),
        Err(reply) => println!(rt; "refused {}", u8::from(reply)),
    }
}
