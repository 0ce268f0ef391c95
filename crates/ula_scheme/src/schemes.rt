// What of a state decides a colour, besides the palette and the ULAplus registers.
ghost use Rattle.std.specs.Prelude.{◌≡◌, true};
ghost use Rattle.register_bounds.specs.Bounds.{is_mask};
ghost use Rattle.ula_scheme.specs.Schemes.{scheme_of, colours_of};
ghost use Rattle.ula_scheme.specs.Bounds.{MaskBounds};

use state::{Palette, Ports, Ula};

#[derive(Clone, Copy)]
pub enum Scheme {
    Plain,
    Next,
    Plus,
}

#[derive(Clone, Copy)]
pub struct Colours {
    pub scheme: Scheme,
    // $42
    pub mask: u8,
    // In this frame ink and paper of a flashing attribute change places.
    pub swap: bool,
    // The fallback colour.
    pub fallback: u16,
    // $14
    pub transparent: u8,
}

#[tactic(auto, unfolding(crate::specs::Schemes::scheme_of))]
fn scheme_of(p: Palette, ports: Ports) -> Scheme
    ensures { result ≡ scheme_of p ports }
{
    if state_bits::next_on(p) {
        return Scheme::Next;
    }
    if ports.plus {
        Scheme::Plus
    } else {
        Scheme::Plain
    }
}

// Asks for a mask, as a lawful state has one.
#[tactic(auto, unfolding(crate::specs::Schemes::colours_of))]
pub fn colours_of(u: Ula, p: Palette, ports: Ports, frame: u8) -> Colours
    requires { is_mask p.mask ≡ true }
    ensures { (result ≡ colours_of u p ports frame) × (MaskBounds result) }
{
    let scheme = scheme_of(p, ports);
    let swap = frame / 16 % 2 == 1;
    let fallback = colour::widen(u.fallback);
    Colours {
        scheme,
        mask: p.mask,
        swap,
        fallback,
        transparent: u.transparent,
    }
}
