// A number that a cell keeps when it is turned.
ghost use Rattle.std.specs.Prelude.{◌≡◌, ◌<◌, ◌≤◌, length};
ghost use Rattle.lists.specs.Tab.{tab};
ghost use Rattle.pack_classes.specs.Mark.{weight_at, square_of, mark_term, mark_of};

// A weight for each pixel, the same for those that turns exchange.
const WEIGHTS: [u32; 64] = [
    1, 38, 75, 112, 112, 75, 38, 1, 38, 1084, 2130, 3176, 3176, 2130, 1084, 38, 75, 2130, 4185,
    6240, 6240, 4185, 2130, 75, 112, 3176, 6240, 9304, 9304, 6240, 3176, 112, 112, 3176, 6240,
    9304, 9304, 6240, 3176, 112, 75, 2130, 4185, 6240, 6240, 4185, 2130, 75, 38, 1084, 2130, 3176,
    3176, 2130, 1084, 38, 1, 38, 75, 112, 112, 75, 38, 1,
];

fn square(b: u8) -> u32
    ensures { (result ≡ square_of b) × (result ≤ 225) }
{
    let p = b as u32 % 16;
    p * p
}

fn mark_term(cell: &[u8], weights: &[u32], i: usize) -> u32
    requires { (length cell.now ≡ 64) × (weights.now ≡ tab weight_at 64) × (i < 64) }
    ensures { (result ≡ mark_term cell.now i) × (result ≤ 2093400) }
{
    weights[i] * square(cell[i])
}

fn sum(cell: &[u8], weights: &[u32]) -> u32
    requires { (length cell.now ≡ 64) × (weights.now ≡ tab weight_at 64) }
    ensures { result ≡ mark_of cell.now }
{
    let mut s = 0;
    for i in 0..64 {
        s += mark_term(cell, weights, i);
    }
    s
}

// The mark of an unpacked cell. The table is taken into a local once and lent, since a constant is made anew where it is
// named.
pub fn mark(cell: &[u8]) -> u32
    requires { length cell.now ≡ 64 }
    ensures { result ≡ mark_of cell.now }
{
    let weights = WEIGHTS;
    sum(cell, &weights)
}
