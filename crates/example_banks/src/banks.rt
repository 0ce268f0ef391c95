// The two banks of the example.
ghost use Rattle.std.specs.Prelude.{◌≡◌, ◌<◌};
ghost use Rattle.lists.specs.Tab.{tab};
ghost use Rattle.example_banks.specs.Banks.{ula_byte, map_byte, definition_byte, tile_byte, lettered};

// A letter F with a spot, on black; its last row and column are transparent.
const LETTER: [u8; 32] = [
    0x01, 0x11, 0x11, 0x0F, 0x01, 0x00, 0x00, 0x0F, 0x01, 0x00, 0x00, 0x0F, 0x01, 0x11, 0x00, 0x0F,
    0x01, 0x00, 0x00, 0x0F, 0x01, 0x00, 0x00, 0x0F, 0x01, 0x00, 0x02, 0x0F, 0xFF, 0xFF, 0xFF, 0xFF,
];

// The ULA bank's byte: a triangle in every cell, and an attribute for each cell.
fn ula_byte(at: usize) -> u8
    ensures { result ≡ ula_byte at }
{
    if at < 6144 {
        return 255u8 >> (at / 256 % 8);
    }
    if at < 6912 {
        let row = (at - 6144) / 32;
        let column = at % 32;
        return (column / 4 + row / 3 * 8 + column / 2 % 2 * 64) as u8;
    }
    0
}

// Whether a cell shows the letter: three rows in each border and in the middle, in eight bands of three columns.
fn is_lettered(row: usize, column: usize) -> bool
    ensures { result ≡ lettered row column }
{
    let band = row / 4;
    ((band == 0) | (band == 3) | (band == 7))
        & (1 <= row % 4)
        & (4 <= column)
        & (column < 36)
        & (column % 4 < 3)
}

// Band t of the map has turn t and palette offset t.
fn map_byte(at: usize) -> u8
    requires { at < 2560 }
    ensures { result ≡ map_byte at }
{
    let row = at / 80;
    let column = at % 80 / 2;
    if is_lettered(row, column) {
        let t = (column / 4 + 7) % 8;
        if at % 2 == 0 { 1 } else { (t * 18) as u8 }
    } else {
        0
    }
}

// Definition 0 is transparent, definition 1 the letter.
fn definition_byte(at: usize) -> u8
    ensures { result ≡ definition_byte at }
{
    if at < 32 {
        return 255;
    }
    if at < 64 { LETTER[at - 32] } else { 0 }
}

// The tile bank's byte: the map from 0, the definitions from 4,096.
fn tile_byte(at: usize) -> u8
    ensures { result ≡ tile_byte at }
{
    if at < 2560 {
        return map_byte(at);
    }
    if at < 4096 {
        0
    } else {
        definition_byte(at - 4096)
    }
}

pub fn example_ula() -> [u8; 16384]
    ensures { result ≡ tab ula_byte 16384 }
{
    std::array::from_fn(ula_byte)
}

pub fn example_tiles() -> [u8; 16384]
    ensures { result ≡ tab tile_byte 16384 }
{
    std::array::from_fn(tile_byte)
}
