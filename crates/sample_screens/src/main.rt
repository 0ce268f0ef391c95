// Screen files read and written: each of the six forms into a reset state and an empty bank, and into a state and a bank that are
// marked; then what is refused, and in which order. README.md says what the lines show.
#![tactic(auto)]

ghost use Rattle.std.specs.Prelude.{◌≤◌};

mod readings;
mod refusals;
mod tally;

use host::files::bytes_of;
use lists::put;
use state::State;
use std::io;
use std::rt::Files;

// What reading sets in other values, and a mark in each other group: LoRes and ULANext on, the Timex modes off, a half held.
fn marked() -> State {
    let mut s = state::reset();
    s.ula.layers = 0xFF;
    s.ula.peripheral = 0xFB;
    s.palette.control = 0xB5;
    s.palette.held = true;
    s.palette.half = 0xA7;
    s.tiles.map = 0x2A;
    s.turns.ula = 3;
    s.frame = 0x91;
    s.ports.border = 5;
    s.ports.timex = 0x3D;
    s.ports.select = 0x55;
    s.ports.plus = true;
    s.plus = [0x3Cu8; 64];
    s.tilesecond = [0x155u16; 256];
    s
}

fn print_both(rt: &impl Print, name: &str, words: &str, file: &[u8]) -> io::Result<()> {
    println!(rt; "{name}{words}")?;
    readings::print_reset(rt, file)?;
    readings::print_marked(rt, file, marked())
}

fn print_file(rt: &(impl Print + Files), name: &str) -> io::Result<()> {
    let mut file = [0u8; 12354];
    let n = bytes_of(rt, name.as_bytes(), &mut file)?;
    print_both(rt, name, "", &file[..n])
}

// The first n bytes of a file, and after them the colours of the file that has some.
fn print_coloured(rt: &(impl Print + Files), name: &str, n: usize) -> io::Result<()>
    requires { n ≤ 12289 }
{
    let mut file = [0u8; 12354];
    bytes_of(rt, name.as_bytes(), &mut file)?;
    let mut other = [0u8; 6976];
    bytes_of(rt, b"struct0p.6976.scr", &mut other)?;
    let from = 6912;
    put(&mut file, n, &other[from..]);
    let end = n + 64;
    print_both(rt, name, " with 64 colours", &file[..end])
}

fn main(rt: HostRuntime) -> io::Result<()> {
    print_file(&rt, "struct0.6912.scr")?;
    print_file(&rt, "struct0p.6976.scr")?;
    print_file(&rt, "struct2.12288.scr")?;
    print_coloured(&rt, "struct2.12288.scr", 12288)?;
    print_file(&rt, "struct6_4.12289.scr")?;
    print_coloured(&rt, "struct6_4.12289.scr", 12289)?;
    refusals::print_lengths(&rt)?;
    refusals::print_ports(&rt)?;
    refusals::print_read_order(&rt)?;
    refusals::print_modes(&rt)?;
    refusals::print_write_order(&rt)
}
