// A state in parts: all its registers, small enough to pass by value, and its four palettes, which a call that writes many registers lends and
// does not copy.
#![tactic(auto)]

ghost use Rattle.std.specs.Prelude.{◌≡◌};
ghost use Rattle.register_parts.specs.Parts.{palettes_of, registers_of, answer_with};

use reply::Reply;
use state::{Answer, Palette, Ports, State, Tiles, Turns, Ula};

// All of a state but its palettes.
#[derive(Clone, Copy)]
pub struct Registers {
    pub ula: Ula,
    pub tiles: Tiles,
    pub palette: Palette,
    pub turns: Turns,
    pub ports: Ports,
    pub frame: u8,
    pub ulaclip: [u8; 4],
    pub tileclip: [u8; 4],
    pub plus: [u8; 64],
}

// The four palettes of a state: those of the ULA, first and second, and those of the tilemap.
#[derive(Clone, Copy)]
pub struct Palettes {
    pub ulafirst: [u16; 256],
    pub ulasecond: [u16; 256],
    pub tilefirst: [u16; 256],
    pub tilesecond: [u16; 256],
}

// What a write to the parts of a state answers: its reply and the registers afterwards.
#[derive(Clone, Copy)]
pub struct Written {
    pub reply: Reply,
    pub registers: Registers,
}

pub fn registers_of(s: State) -> Registers
    ensures { result ≡ registers_of s }
{
    let ula = s.ula;
    let tiles = s.tiles;
    let palette = s.palette;
    let turns = s.turns;
    let ports = s.ports;
    let ulaclip = s.ulaclip;
    let tileclip = s.tileclip;
    let plus = s.plus;
    Registers {
        ula,
        tiles,
        palette,
        turns,
        ports,
        frame: s.frame,
        ulaclip,
        tileclip,
        plus,
    }
}

pub fn palettes_of(s: State) -> Palettes
    ensures { result ≡ palettes_of s }
{
    let ulafirst = s.ulafirst;
    let ulasecond = s.ulasecond;
    let tilefirst = s.tilefirst;
    let tilesecond = s.tilesecond;
    Palettes {
        ulafirst,
        ulasecond,
        tilefirst,
        tilesecond,
    }
}

// Puts the parts of a state together again, and answers with it. The palettes are lent, since handed over they would be copied once more.
pub fn answer_with(w: Written, p: &Palettes) -> Answer
    ensures { result ≡ answer_with w p.now }
{
    let ula = w.registers.ula;
    let tiles = w.registers.tiles;
    let palette = w.registers.palette;
    let turns = w.registers.turns;
    let ports = w.registers.ports;
    let ulaclip = w.registers.ulaclip;
    let tileclip = w.registers.tileclip;
    let plus = w.registers.plus;
    let ulafirst = p.ulafirst;
    let ulasecond = p.ulasecond;
    let tilefirst = p.tilefirst;
    let tilesecond = p.tilesecond;
    let state = State {
        ula,
        tiles,
        palette,
        turns,
        ports,
        frame: w.registers.frame,
        ulaclip,
        tileclip,
        plus,
        ulafirst,
        ulasecond,
        tilefirst,
        tilesecond,
    };
    Answer {
        reply: w.reply,
        state,
    }
}
