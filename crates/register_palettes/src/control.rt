// The ink mask and the control register.
ghost use Rattle.std.specs.Prelude.{◌≡◌};
ghost use Rattle.register_parts.specs.Parts.{bare, written_of};
ghost use Rattle.register_palettes.specs.Palettes.{mask_written, control_written};

use register_answers::if_fits;
use register_bounds::{is_choice, is_mask};
use register_parts::{Registers, Written};

// $42
pub fn write_mask(g: Registers, value: u8) -> Written
    ensures { result ≡ written_of (mask_written (bare g) value) }
{
    let ok = is_mask(value);
    let mut t = g;
    t.palette.mask = value;
    if_fits(ok, t, g)
}

// $43
pub fn write_control(g: Registers, value: u8) -> Written
    ensures { result ≡ written_of (control_written (bare g) value) }
{
    let ok = is_choice(value);
    let mut t = g;
    t.palette.control = value;
    t.palette.held = false;
    t.palette.half = 0;
    if_fits(ok, t, g)
}
