// A state made to show a screen file, group by group.
ghost use Rattle.std.specs.Prelude.{◌≡◌, ◌≤◌, length};
ghost use Rattle.lists.specs.Placed.{placed};
ghost use Rattle.scr_state.specs.Screen.{ula_for_screen, palette_for_screen, ports_for_screen, with_screen};

use lists::put;
use state::{Palette, Ports, State, Ula};

fn ula_for_screen(u: Ula) -> Ula
    ensures { result ≡ ula_for_screen u }
{
    let layers = u.layers % 128;
    let peripheral = u.peripheral / 8 * 8 + 4 + u.peripheral % 4;
    let mut t = u;
    t.layers = layers;
    t.peripheral = peripheral;
    t
}

fn palette_for_screen(p: Palette) -> Palette
    ensures { result ≡ palette_for_screen p }
{
    let control = p.control / 2 * 2;
    let mut t = p;
    t.control = control;
    t
}

fn ports_for_screen(p: Ports, port: u8, plus: bool) -> Ports
    ensures { result ≡ ports_for_screen p port plus }
{
    let mut t = p;
    t.timex = port;
    t.plus = plus;
    t
}

// The first registers are those of the part, the others stay.
fn refilled(old: [u8; 64], part: &[u8]) -> [u8; 64]
    requires { length part.now ≤ 64 }
    ensures { result ≡ placed old 0 part.now }
{
    let mut registers = old;
    put(&mut registers, 0, part);
    registers
}

// The state with a screen's settings; `colours` are 64 registers, or none where they stay, so they are no more than there are.
pub fn with_screen(s: State, port: u8, plus: bool, colours: &[u8]) -> State
    requires { length colours.now ≤ 64 }
    ensures { result ≡ with_screen s port plus (placed s.plus 0 colours.now) }
{
    let ula = ula_for_screen(s.ula);
    let palette = palette_for_screen(s.palette);
    let ports = ports_for_screen(s.ports, port, plus);
    let plus_before = s.plus;
    let registers = refilled(plus_before, colours);
    let mut t = s;
    t.ula = ula;
    t.palette = palette;
    t.ports = ports;
    t.plus = registers;
    t
}
