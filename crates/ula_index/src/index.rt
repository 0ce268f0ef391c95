// The palette indices of an attribute.
ghost use Rattle.std.specs.Prelude.{◌≡◌, true, false, ◌+◌, ◌/◌, ◌^◌, ◌≤◌, ◌<◌};
ghost use Rattle.register_bounds.specs.Bounds.{is_mask};
ghost use Rattle.ula_index.specs.Index.{ink_index, paper_index, paperless, swapped};
ghost use Rattle.ula_index.specs.Bounds.{indices};

use ula_scheme::Scheme;

pub fn ink_index(k: Scheme, mask: u8, a: u8) -> usize
    ensures { (result ≡ ink_index k mask a) × (result < indices k) }
{
    let w = usize::from(a);
    match k {
        Scheme::Plain => w % 8 + 8 * (w / 64 % 2),
        Scheme::Next => usize::from(a & mask),
        Scheme::Plus => w / 64 * 16 + w % 8,
    }
}

// The number of bits that a mask leaves to the ink, which is its count of ones: each mask is 2 to that, less 1.
fn ink_width(mask: u8) -> usize
    requires { is_mask mask ≡ true }
    ensures { (2 ^ result ≡ mask + 1) × (result ≤ 8) }
{
    u8::count_ones(mask) as usize
}

// ULANext's paper. Asks for a mask that leaves the paper bits, which 255 does not.
fn next_paper(mask: u8, a: u8) -> usize
    requires { (is_mask mask ≡ true) × (mask < 255) }
    ensures { (result ≡ 128 + a / (mask + 1)) × (result < 256) }
{
    let n = ink_width(mask);
    128 + (usize::from(a) >> n)
}

// Where mask 255 has left no paper there is no index to ask for.
pub fn paper_index(k: Scheme, mask: u8, a: u8) -> usize
    requires { (is_mask mask ≡ true) × (paperless k mask ≡ false) }
    ensures { (result ≡ paper_index k mask a) × (result < indices k) }
{
    let w = usize::from(a);
    match k {
        Scheme::Plain => 16 + w / 8 % 8 + 8 * (w / 64 % 2),
        Scheme::Next => next_paper(mask, a),
        Scheme::Plus => w / 64 * 16 + 8 + w / 8 % 8,
    }
}

pub fn is_paperless(k: Scheme, mask: u8) -> bool
    ensures { result ≡ paperless k mask }
{
    matches!(k, Scheme::Next) & (mask == 255)
}

// In this frame ink and paper of the attribute have changed places.
pub fn is_swapped(k: Scheme, swap: bool, a: u8) -> bool
    ensures { result ≡ swapped k swap a }
{
    matches!(k, Scheme::Plain) & (128 <= a) & swap
}
