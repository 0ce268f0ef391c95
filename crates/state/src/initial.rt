// The state after a reset.
ghost use Rattle.std.specs.Prelude.{◌≡◌};
ghost use Rattle.state.specs.Reset.{reset_ula, reset_tiles, reset_palette, reset_state};

use crate::{Palette, Ports, State, Tiles, Turns, Ula};

fn reset_ula() -> Ula
    ensures { result ≡ reset_ula }
{
    Ula {
        transparent: 0xE3,
        layers: 0,
        peripheral: 0,
        fallback: 0,
        control: 0,
        x: 0,
        y: 0,
        loresx: 0,
        loresy: 0,
    }
}

fn reset_tiles() -> Tiles
    ensures { result ≡ reset_tiles }
{
    Tiles {
        transparent: 15,
        control: 0,
        attribute: 0,
        xhigh: 0,
        xlow: 0,
        y: 0,
        map: 0,
        definitions: 0,
    }
}

fn reset_palette() -> Palette
    ensures { result ≡ reset_palette }
{
    Palette {
        control: 0,
        index: 0,
        mask: 15,
        held: false,
        half: 0,
    }
}

pub fn reset() -> State
    ensures { result ≡ reset_state }
{
    let ula = reset_ula();
    let tiles = reset_tiles();
    let palette = reset_palette();
    State {
        ula,
        tiles,
        palette,
        turns: Turns { ula: 0, tiles: 0 },
        ports: Ports {
            border: 0,
            timex: 0,
            select: 0,
            plus: false,
        },
        frame: 0,
        ulaclip: [0, 255, 0, 191],
        tileclip: [0, 159, 0, 255],
        plus: [0u8; 64],
        ulafirst: [0u16; 256],
        ulasecond: [0u16; 256],
        tilefirst: [0u16; 256],
        tilesecond: [0u16; 256],
    }
}
