// Colours from bytes.
ghost use Rattle.std.specs.Prelude.{◌≡◌};
ghost use Rattle.colour.specs.Bytes.{widened, plus_colour};

// An eight-bit colour RRRGGGBB; the ninth bit is the OR of its two blue bits.
pub fn widen(b: u8) -> u16
    ensures { result ≡ widened b }
{
    let w = u16::from(b);
    if w % 4 == 0 { w * 2 } else { w * 2 + 1 }
}

// The colour of a ULAplus byte GGGRRRBb; its blue is Bbb.
pub fn plus_colour(b: u8) -> u16
    ensures { result ≡ plus_colour b }
{
    let w = u16::from(b);
    w / 4 % 8 * 64 + w / 32 * 8 + w % 4 * 2 + w % 2
}
