// Writes to the registers of the ULA and LoRes.
ghost use Rattle.std.specs.Prelude.{◌≡◌};
ghost use Rattle.register_parts.specs.Parts.{bare, written_of};
ghost use Rattle.register_stored.specs.Stored.{peripheral_written, transparent_written, layers_written, ula_xwritten, ula_ywritten, lores_xwritten, lores_ywritten, fallback_written, ula_control_written};

use register_answers::{accept_apart, if_fits};
use register_bounds::{offset_y_fits, ula_control_fits};
use register_parts::{Registers, Written};

// $08
pub fn write_peripheral(g: Registers, value: u8) -> Written
    ensures { result ≡ written_of (peripheral_written (bare g) value) }
{
    let mut t = g;
    t.ula.peripheral = value;
    accept_apart(t)
}

// $14
pub fn write_transparent(g: Registers, value: u8) -> Written
    ensures { result ≡ written_of (transparent_written (bare g) value) }
{
    let mut t = g;
    t.ula.transparent = value;
    accept_apart(t)
}

// $15
pub fn write_layers(g: Registers, value: u8) -> Written
    ensures { result ≡ written_of (layers_written (bare g) value) }
{
    let mut t = g;
    t.ula.layers = value;
    accept_apart(t)
}

// $26
pub fn write_ula_x(g: Registers, value: u8) -> Written
    ensures { result ≡ written_of (ula_xwritten (bare g) value) }
{
    let mut t = g;
    t.ula.x = value;
    accept_apart(t)
}

// $27
pub fn write_ula_y(g: Registers, value: u8) -> Written
    ensures { result ≡ written_of (ula_ywritten (bare g) value) }
{
    let ok = offset_y_fits(value);
    let mut t = g;
    t.ula.y = value;
    if_fits(ok, t, g)
}

// $32
pub fn write_lores_x(g: Registers, value: u8) -> Written
    ensures { result ≡ written_of (lores_xwritten (bare g) value) }
{
    let mut t = g;
    t.ula.loresx = value;
    accept_apart(t)
}

// $33
pub fn write_lores_y(g: Registers, value: u8) -> Written
    ensures { result ≡ written_of (lores_ywritten (bare g) value) }
{
    let ok = offset_y_fits(value);
    let mut t = g;
    t.ula.loresy = value;
    if_fits(ok, t, g)
}

// $4A
pub fn write_fallback(g: Registers, value: u8) -> Written
    ensures { result ≡ written_of (fallback_written (bare g) value) }
{
    let mut t = g;
    t.ula.fallback = value;
    accept_apart(t)
}

// $68
pub fn write_ula_control(g: Registers, value: u8) -> Written
    ensures { result ≡ written_of (ula_control_written (bare g) value) }
{
    let ok = ula_control_fits(value);
    let mut t = g;
    t.ula.control = value;
    if_fits(ok, t, g)
}
