// Dots: a nine-bit colour, or 512 where transparent.
ghost use Rattle.std.specs.Prelude.{◌≡◌};
ghost use Rattle.surface.specs.Dots.{shown, inside, top_dot};

// A ULA colour as a dot: transparent where its upper eight bits are those of $14.
pub fn show(transparent: u8, c: u16) -> u16
    ensures { result ≡ shown transparent c }
{
    if c / 2 == u16::from(transparent) {
        512
    } else {
        c
    }
}

// Between two coordinates of a clip, both ends inside.
pub fn is_inside(v: usize, low: usize, high: usize) -> bool
    ensures { result ≡ inside v low high }
{
    (low <= v) & (v <= high)
}

// The upper dot unless transparent, then the lower.
pub fn top_dot(upper: u16, lower: u16) -> u16
    ensures { result ≡ top_dot upper lower }
{
    if upper == 512 { lower } else { upper }
}
