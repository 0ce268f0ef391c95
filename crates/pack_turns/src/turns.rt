// The turn that makes one cell into another.
ghost use Rattle.std.specs.Prelude.{◌≡◌, true, false, ◌≤◌, ◌<◌, length, MatchOption};
ghost use Rattle.pack_turns.specs.Rows.{transpose_of, Eight, Row, row_same, rows_same};
ghost use Rattle.pack_classes.specs.Turned.{turned_into, turn_for};
ghost use Rattle.pack_classes.specs.Mark.{mark_of};

use tilemap_turns::mirror;

// A cell with its rows and columns exchanged, in which rotated turns are compared row by row.
pub fn transpose(cell: &[u8], out: &mut [u8])
    requires { (length cell.now ≡ 64) × (length out.old ≡ 64) }
    ensures { out.new ≡ transpose_of cell.now }
{
    for i in 0..64 {
        out[i] = cell[i % 8 * 8 + i / 8];
    }
}

// Eight pixels as one number, the first the lowest, so that they are compared at once.
fn row_number(a: u8, b: u8, c: u8, d: u8, e: u8, f: u8, g: u8, h: u8) -> usize
    ensures { Eight a b c d e f g h result }
{
    usize::from(a)
        + usize::from(b) * 256
        + usize::from(c) * 65536
        + usize::from(d) * 16777216
        + usize::from(e) * 4294967296
        + usize::from(f) * 1099511627776
        + usize::from(g) * 281474976710656
        + usize::from(h) * 72057594037927936
}

// The row at i, mirrored or not. A parameter of the code, so that eight pixels side by side are read at once.
fn row<const BACK: bool>(cell: &[u8; 64], i: usize) -> usize
    requires { i ≤ 56 }
    ensures { Row cell.now i BACK result }
{
    row_number(
        cell[i + mirror(BACK, 0)],
        cell[i + mirror(BACK, 1)],
        cell[i + mirror(BACK, 2)],
        cell[i + mirror(BACK, 3)],
        cell[i + mirror(BACK, 4)],
        cell[i + mirror(BACK, 5)],
        cell[i + mirror(BACK, 6)],
        cell[i + mirror(BACK, 7)],
    )
}

// The row at i of a cell is the row at j of another, mirrored or not.
fn row_same(from: &[u8; 64], j: usize, back: bool, cell: &[u8; 64], i: usize) -> bool
    requires { (j ≤ 56) × (i ≤ 56) }
    ensures { result ≡ row_same from.now j back cell.now i }
{
    let a = row::<false>(cell, i);
    let f = row::<false>(from, j);
    let b = row::<true>(from, j);
    if back { a == b } else { a == f }
}

// A cell is another mirrored, down or not, and back or not. Tried with `all` over the rows: the proof did not close.
fn same(from: &[u8; 64], cell: &[u8; 64], down: bool, back: bool) -> bool
    ensures { result ≡ rows_same from.now cell.now down back }
{
    for y in 0..8 {
        if !row_same(from, mirror(down, y) * 8, back, cell, y * 8) {
            return false;
        }
    }
    true
}

// One unpacked cell, turned by t, is another. Where t rotates, the first cell's transpose is mirrored.
fn same_turn(from: &[u8; 64], transposed: &[u8; 64], cell: &[u8; 64], t: usize) -> bool
    requires { transposed.now ≡ transpose_of from.now }
    ensures { result ≡ turned_into from.now cell.now t }
{
    let down = t / 2 % 2 == 1;
    let back = t / 4 % 2 != t % 2;
    if t % 2 == 1 {
        same(transposed, cell, down, back)
    } else {
        same(from, cell, down, back)
    }
}

// The smallest turn that makes one unpacked cell into another; `transposed` is the first cell's transpose. Tried with `find`: the proof
// did not close.
fn turn_for(from: &[u8; 64], transposed: &[u8; 64], cell: &[u8; 64]) -> Option<usize>
    requires { transposed.now ≡ transpose_of from.now }
    ensures { MatchOption result (8 ≡ turn_for from.now cell.now) (λ t. (t ≡ turn_for from.now cell.now) × (t < 8)) }
{
    for t in 0..8 {
        if same_turn(from, transposed, cell, t) {
            return Some(t);
        }
    }
    None
}

// The same, with the marks of both cells at hand: where they differ no turn is tried.
pub fn turn_marked(
    from: &[u8; 64],
    transposed: &[u8; 64],
    cell: &[u8; 64],
    ours: u32,
    theirs: u32,
) -> Option<usize>
    requires { (transposed.now ≡ transpose_of from.now) × (ours ≡ mark_of from.now) × (theirs ≡ mark_of cell.now) }
    ensures { MatchOption result (8 ≡ turn_for from.now cell.now) (λ t. (t ≡ turn_for from.now cell.now) × (t < 8)) }
{
    if ours != theirs {
        return None;
    }
    turn_for(from, transposed, cell)
}
