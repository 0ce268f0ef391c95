// The addresses of the modes with attributes in the bank. Rows and columns are those of the bank's picture, after the scroll, and in
// their bounds, so that an address is inside the bank, with the 32 columns of its row.
ghost use Rattle.std.specs.Prelude.{◌≡◌, ◌+◌, ◌≤◌, ◌<◌};
ghost use Rattle.ula_address.specs.Addresses.{bitmap_address, attribute_address};

use ula_byte::{byte_address, cell_address};
use ula_mode::Mode;

pub fn bitmap_address(mode: Mode, y: usize, column: usize) -> usize
    requires { (y < 192) × (column < 32) }
    ensures { (result ≡ bitmap_address mode y column) × (result ≤ 16352 + column) }
{
    let at = byte_address(y, column);
    match mode {
        Mode::Second => at + 0x2000,
        _ => at,
    }
}

pub fn attribute_address(mode: Mode, y: usize, column: usize) -> usize
    requires { (y < 192) × (column < 32) }
    ensures { (result ≡ attribute_address mode y column) × (result ≤ 16352 + column) }
{
    let at = cell_address(y, column);
    match mode {
        Mode::Second => at + 0x2000,
        Mode::HighColour => byte_address(y, column) + 0x2000,
        _ => at,
    }
}
