// The groups of registers of the state in a record. Where a version has no $26 and $27 they are read where $32 and $33 stand.
ghost use Rattle.std.specs.Prelude.{◌≡◌, ◌≤◌, length};
ghost use Rattle.record_layout.specs.Places.{ula_first_place, lores_xplace};
ghost use Rattle.record_layout.specs.Record.{state_as};
ghost use Rattle.record_groups.specs.Tiles.{TilesIn};

use record_layout::Version;
use record_places::{added, places};
use state::{Palette, Ports, Tiles, Turns, Ula};

pub fn ula_at(b: &[u8], v: Version) -> Ula
    requires { ula_first_place v ≤ length b.now }
    ensures { result ≡ (state_as v b.now).ula }
{
    let n = added(v);
    Ula {
        transparent: b[places::ULA_TRANSPARENT],
        layers: b[places::LAYERS],
        peripheral: b[places::PERIPHERAL],
        fallback: b[places::FALLBACK],
        control: b[places::ULA_CONTROL],
        x: b[places::LORES_X + n],
        y: b[places::LORES_Y + n],
        loresx: b[places::LORES_X],
        loresy: b[places::LORES_Y],
    }
}

// The tilemap's registers stand before $32, so every version has them at one place.
pub fn tiles_at(b: &[u8]) -> Tiles
    requires { lores_xplace ≤ length b.now }
    ensures { TilesIn b.now result }
{
    Tiles {
        transparent: b[places::TILE_TRANSPARENT],
        control: b[places::TILE_CONTROL],
        attribute: b[places::ATTRIBUTE],
        xhigh: b[places::TILE_X_HIGH],
        xlow: b[places::TILE_X_LOW],
        y: b[places::TILE_Y],
        map: b[places::MAP],
        definitions: b[places::DEFINITIONS],
    }
}

pub fn palette_at(b: &[u8], v: Version) -> Palette
    requires { ula_first_place v ≤ length b.now }
    ensures { result ≡ (state_as v b.now).palette }
{
    let n = added(v);
    Palette {
        control: b[places::PALETTE_CONTROL],
        index: b[places::INDEX],
        mask: b[places::MASK],
        held: b[places::HELD + n] == 1,
        half: b[places::HALF + n],
    }
}

pub fn turns_at(b: &[u8], v: Version) -> Turns
    requires { ula_first_place v ≤ length b.now }
    ensures { result ≡ (state_as v b.now).turns }
{
    let n = added(v);
    Turns {
        ula: b[places::ULA_TURN + n],
        tiles: b[places::TILE_TURN + n],
    }
}

pub fn ports_at(b: &[u8], v: Version) -> Ports
    requires { ula_first_place v ≤ length b.now }
    ensures { result ≡ (state_as v b.now).ports }
{
    let n = added(v);
    Ports {
        border: b[places::BORDER + n],
        timex: b[places::TIMEX + n],
        select: b[places::SELECT + n],
        plus: b[places::PLUS_ON + n] == 1,
    }
}

pub fn frame_at(b: &[u8], v: Version) -> u8
    requires { ula_first_place v ≤ length b.now }
    ensures { result ≡ (state_as v b.now).frame }
{
    b[places::FRAME + added(v)]
}
