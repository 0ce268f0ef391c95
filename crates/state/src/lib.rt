// A member's whole video state by value: its registers, what is lawful, and reset.
#![tactic(auto)]

mod bounds;
mod initial;

pub use bounds::{lawful, lawful_registers, lawful_reply};
pub use initial::reset;
use reply::Reply;

// The ULA's registers.
#[derive(Clone, Copy)]
pub struct Ula {
    // $14
    pub transparent: u8,
    // $15
    pub layers: u8,
    // $08
    pub peripheral: u8,
    // $4A
    pub fallback: u8,
    // $68
    pub control: u8,
    // $26
    pub x: u8,
    // $27
    pub y: u8,
    // $32
    pub loresx: u8,
    // $33
    pub loresy: u8,
}

// The tilemap's registers.
#[derive(Clone, Copy)]
pub struct Tiles {
    // $4C
    pub transparent: u8,
    // $6B
    pub control: u8,
    // $6C
    pub attribute: u8,
    // $2F
    pub xhigh: u8,
    // $30
    pub xlow: u8,
    // $31
    pub y: u8,
    // $6E
    pub map: u8,
    // $6F
    pub definitions: u8,
}

// The registers by which colours are written. `half` is the first byte of a nine-bit colour, while it is held.
#[derive(Clone, Copy)]
pub struct Palette {
    // $43
    pub control: u8,
    // $40
    pub index: u8,
    // $42
    pub mask: u8,
    pub held: bool,
    pub half: u8,
}

// Which coordinate of each clip is written next.
#[derive(Clone, Copy)]
pub struct Turns {
    pub ula: u8,
    pub tiles: u8,
}

#[derive(Clone, Copy)]
pub struct Ports {
    // $FE
    pub border: u8,
    // $FF
    pub timex: u8,
    // $BF3B
    pub select: u8,
    // ULAplus is on.
    pub plus: bool,
}

#[derive(Clone, Copy)]
pub struct State {
    pub ula: Ula,
    pub tiles: Tiles,
    pub palette: Palette,
    pub turns: Turns,
    pub ports: Ports,
    pub frame: u8,
    // X1, X2, Y1, Y2 of $1A and of $1B
    pub ulaclip: [u8; 4],
    pub tileclip: [u8; 4],
    // The ULAplus registers.
    pub plus: [u8; 64],
    pub ulafirst: [u16; 256],
    pub ulasecond: [u16; 256],
    pub tilefirst: [u16; 256],
    pub tilesecond: [u16; 256],
}

// What a call that changes a state answers: its reply and the whole state afterwards.
#[derive(Clone, Copy)]
pub struct Answer {
    pub reply: Reply,
    pub state: State,
}
