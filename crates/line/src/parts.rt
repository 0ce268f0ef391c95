// What a line shows of a state.
ghost use Rattle.std.specs.Prelude.{◌≡◌};
ghost use Rattle.register_parts.specs.Parts.{bare};
ghost use Rattle.line.specs.Shown.{shown_of};

use register_parts::Registers;
use state::{Palette, Ports, Tiles, Ula};

// All that a line shows of a state but the two palettes: small enough to be handed over by value at each line.
#[derive(Clone, Copy)]
pub struct Shown {
    pub ula: Ula,
    pub palette: Palette,
    pub tiles: Tiles,
    pub ports: Ports,
    pub frame: u8,
    pub ulaclip: [u8; 4],
    pub tileclip: [u8; 4],
    pub plus: [u8; 64],
}

pub fn shown_of(g: Registers) -> Shown
    ensures { result ≡ shown_of (bare g) }
{
    let ula = g.ula;
    let palette = g.palette;
    let tiles = g.tiles;
    let ports = g.ports;
    let ulaclip = g.ulaclip;
    let tileclip = g.tileclip;
    let plus = g.plus;
    Shown {
        ula,
        palette,
        tiles,
        ports,
        frame: g.frame,
        ulaclip,
        tileclip,
        plus,
    }
}
