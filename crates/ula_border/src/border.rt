// The palette index of the border.
ghost use Rattle.std.specs.Prelude.{◌≡◌, true, false, ◌≤◌, ◌<◌};
ghost use Rattle.register_bounds.specs.Bounds.{is_mask};
ghost use Rattle.ula_index.specs.Index.{paperless};
ghost use Rattle.ula_index.specs.Bounds.{indices};
ghost use Rattle.ula_border.specs.Border.{border_index, hires_border_index, border_number};

use ula_index::paper_index;
use ula_scheme::Scheme;

pub fn border_index(k: Scheme, border: u8) -> usize
    requires { border ≤ 7 }
    ensures { (result ≡ border_index k border) × (result < indices k) }
{
    let b = usize::from(border);
    match k {
        Scheme::Plain => 16 + b,
        Scheme::Next => 128 + b,
        Scheme::Plus => 8 + b,
    }
}

// Mode 6: the border is the paper.
pub fn hires_border_index(k: Scheme, mask: u8, a: u8) -> usize
    requires { (is_mask mask ≡ true) × (paperless k mask ≡ false) }
    ensures { (result ≡ hires_border_index k mask a) × (result < indices k) }
{
    let i = paper_index(k, mask, a);
    match k {
        Scheme::Next => 128 + i % 8,
        _ => i,
    }
}

// The border's index, in mode 6 the paper's; a is mode 6's attribute.
#[tactic(auto, unfolding(crate::specs::Border::border_number))]
pub fn border_number(k: Scheme, mask: u8, hires: bool, a: u8, border: u8) -> usize
    requires { (is_mask mask ≡ true) × (paperless k mask ≡ false) × (border ≤ 7) }
    ensures { (result ≡ border_number k mask hires a border) × (result < indices k) }
{
    if hires {
        hires_border_index(k, mask, a)
    } else {
        border_index(k, border)
    }
}
