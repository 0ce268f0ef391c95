// Which pixel of a definition a place of a cell shows under a turn, and which half of a byte it is.
ghost use Rattle.std.specs.Prelude.{◌≡◌, ◌<◌};
ghost use Rattle.tilemap_turns.specs.Turns.{mirrored, column_of, row_of, half_of};

// A pixel of a definition.
#[derive(Clone, Copy)]
pub struct Spot {
    pub column: usize,
    pub row: usize,
}

// A coordinate within the cell, mirrored or not.
pub fn mirror(on: bool, v: usize) -> usize
    requires { v < 8 }
    ensures { (result ≡ mirrored on v) × (result < 8) }
{
    if on { 7 - v } else { v }
}

// The definition's pixel that (x, y) of a cell shows under a turn.
pub fn turned(turn: usize, x: usize, y: usize) -> Spot
    requires { (x < 8) × (y < 8) }
    ensures { (result.column ≡ column_of turn x y) × (result.row ≡ row_of turn x y) × (result.column < 8) × (result.row < 8) }
{
    let a = mirror(turn / 4 % 2 != turn % 2, x);
    let b = mirror(turn / 2 % 2 == 1, y);
    if turn % 2 == 1 {
        Spot { column: b, row: a }
    } else {
        Spot { column: a, row: b }
    }
}

// The half of a byte that is the pixel at x.
pub fn half(x: usize, byte: usize) -> usize
    ensures { (result ≡ half_of x byte) × (result < 16) }
{
    if x % 2 == 0 {
        byte / 16 % 16
    } else {
        byte % 16
    }
}
