// The colours of an attribute and of the border, as dots.
ghost use Rattle.std.specs.Prelude.{◌≡◌, ◌≤◌, ◌<◌};
ghost use Rattle.ula_scheme.specs.Bounds.{MaskBounds};
ghost use Rattle.ula_index.specs.Index.{paper_index};
ghost use Rattle.ula_index.specs.Bounds.{indices};
ghost use Rattle.ula_border.specs.Border.{border_number};
ghost use Rattle.ula_attribute.specs.Colours.{colour_at, paper_colour, bit_dot, border_dot};

use ula_border::border_number;
use ula_index::{ink_index, is_paperless, is_swapped, paper_index};
use ula_scheme::{Colours, Scheme};

fn colour_at(k: Scheme, pal: &[u16; 256], plus: &[u8; 64], i: usize) -> u16
    requires { i < indices k }
    ensures { result ≡ colour_at k pal.now plus.now i }
{
    match k {
        Scheme::Plain | Scheme::Next => pal[i],
        Scheme::Plus => colour::plus_colour(plus[i]),
    }
}

#[tactic(auto, unfolding(crate::specs::Colours::paper_colour))]
fn paper_colour(l: Colours, pal: &[u16; 256], plus: &[u8; 64], a: u8) -> u16
    requires { MaskBounds l }
    ensures { result ≡ paper_colour l pal.now plus.now (paper_index l.scheme l.mask a) }
{
    let k = l.scheme;
    if is_paperless(k, l.mask) {
        l.fallback
    } else {
        colour_at(k, pal, plus, paper_index(k, l.mask, a))
    }
}

// The dots of an attribute, before the clip: of a bit that is 1, and of one that is 0.
#[derive(Clone, Copy)]
pub struct Dots {
    pub bit1: u16,
    pub bit0: u16,
}

// Both colours are read once for all bits under the attribute.
#[tactic(auto, unfolding(crate::specs::Colours::bit_dot, crate::specs::Colours::bit_colour, ula_index::specs::Index::bit_index, ula_index::specs::Index::ink_shown))]
pub fn bit_dots(l: Colours, pal: &[u16; 256], plus: &[u8; 64], a: u8) -> Dots
    requires { MaskBounds l }
    ensures { (result.bit1 ≡ bit_dot l pal.now plus.now a 1) × (result.bit0 ≡ bit_dot l pal.now plus.now a 0) }
{
    let k = l.scheme;
    let i = ink_index(k, l.mask, a);
    let ink = surface::show(l.transparent, colour_at(k, pal, plus, i));
    let paper = surface::show(l.transparent, paper_colour(l, pal, plus, a));
    if is_swapped(k, l.swap, a) {
        Dots {
            bit1: paper,
            bit0: ink,
        }
    } else {
        Dots {
            bit1: ink,
            bit0: paper,
        }
    }
}

#[tactic(auto, unfolding(crate::specs::Colours::paper_colour))]
fn border_colour(
    l: Colours,
    pal: &[u16; 256],
    plus: &[u8; 64],
    hires: bool,
    a: u8,
    border: u8,
) -> u16
    requires { (MaskBounds l) × (border ≤ 7) }
    ensures { result ≡ paper_colour l pal.now plus.now (border_number l.scheme l.mask hires a border) }
{
    let k = l.scheme;
    if is_paperless(k, l.mask) {
        l.fallback
    } else {
        colour_at(k, pal, plus, border_number(k, l.mask, hires, a, border))
    }
}

// The dot of the border; a is mode 6's attribute.
#[tactic(auto, unfolding(crate::specs::Colours::border_dot))]
pub fn border_dot(
    l: Colours,
    pal: &[u16; 256],
    plus: &[u8; 64],
    hires: bool,
    a: u8,
    border: u8,
) -> u16
    requires { (MaskBounds l) × (border ≤ 7) }
    ensures { result ≡ border_dot l pal.now plus.now hires a border }
{
    surface::show(l.transparent, border_colour(l, pal, plus, hires, a, border))
}
