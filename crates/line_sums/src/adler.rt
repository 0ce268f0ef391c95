// The Adler-32 of a line's dots.
ghost use Rattle.std.specs.Prelude.{◌≡◌, ◌<◌};
ghost use Rattle.line_sums.specs.Adler.{added, dot_added, line_sum, Small};

// The two sums of Adler-32.
#[derive(Clone, Copy)]
pub struct Pair {
    pub a: u32,
    pub b: u32,
}

fn add(s: Pair, x: u32) -> Pair
    requires { (Small s) × (x < 256) }
    ensures { (result ≡ added s x) × (Small result) }
{
    let a = (s.a + x) % 65521;
    let b = (s.b + a) % 65521;
    Pair { a, b }
}

fn add_dot(s: Pair, dot: u16) -> Pair
    requires { Small s }
    ensures { (result ≡ dot_added s dot) × (Small result) }
{
    let d = u32::from(dot);
    add(add(s, d / 256), d % 256)
}

// The Adler-32 of dots, two bytes a dot, high first.
pub fn line_sum(dots: &[u16]) -> u32
    ensures { result ≡ line_sum dots.now }
{
    let mut s = Pair { a: 1, b: 0 };
    for dot in dots {
        s = add_dot(s, *dot);
    }
    s.b * 65536 + s.a
}
