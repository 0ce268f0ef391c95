// A dot of three layers over the fallback.
ghost use Rattle.std.specs.Prelude.{◌≡◌, cond, ◌<◌, ◌≤◌};
ghost use Rattle.layer_dots.specs.Laid.{toggled, greater, over, three_over, level_over};

// A number with its bit 9 the other way.
pub fn toggle(n: u16) -> u16
    requires { n ≤ 65023 }
    ensures { result ≡ toggled n }
{
    (n + 512) % 1024 + n / 1024 * 1024
}

// Compared as signed numbers: of these the machine compares many at once, of the others it does not.
fn greater_of(a: u16, b: u16) -> u16
    requires { (a < 32768) × (b < 32768) }
    ensures { result ≡ greater a b }
{
    if (a as i16) < (b as i16) { b } else { a }
}

fn lay_over(x: u16, below: u16) -> u16
    requires { (x < 2048) × (below < 2048) }
    ensures { (result ≡ over x below) × (result < 2048) }
{
    let n = greater_of(toggle(x), below);
    n / 1024 * 1024 + n % 512
}

fn three_over(x: u16, y: u16, z: u16, fallback: u16) -> u16
    requires { (x < 2048) × (y < 2048) × (z < 2048) × (fallback < 2048) }
    ensures { result ≡ three_over x y z fallback }
{
    lay_over(x, lay_over(y, lay_over(z, fallback))) % 512
}

fn one_of(b: bool, x: u16, y: u16) -> u16
    ensures { result ≡ cond b x y }
{
    if b { x } else { y }
}

// The three are put in their order before they are laid: the level is the same for a whole line, and the compiler makes a loop for each.
pub fn level_over(level: u8, fallback: u16, upper: u16, lower: u16, u: u16) -> u16
    requires { (fallback < 2048) × (upper < 2048) × (lower < 2048) × (u < 2048) }
    ensures { result ≡ level_over level fallback upper lower u }
{
    let first = one_of(level == 2, u, upper);
    let second = one_of(level == 2, upper, one_of(level == 1, u, lower));
    let third = one_of(level == 0, u, lower);
    three_over(first, second, third, fallback)
}
