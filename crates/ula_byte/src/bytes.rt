// The bytes of the bank. Rows and columns are those of the bank's picture, after the scroll, and in their bounds, so that an
// address is inside the bank.
ghost use Rattle.std.specs.Prelude.{◌≡◌, ◌<◌};
ghost use Rattle.ula_byte.specs.Bytes.{byte_address, cell_address, hires_address, hires_attribute, lores_address, bit_of};

// Column c of 32 of a row of 192.
pub fn byte_address(y: usize, column: usize) -> usize
    requires { (y < 192) × (column < 32) }
    ensures { (result ≡ byte_address y column) × (result < 0x1800) }
{
    y / 64 * 2048 + y % 8 * 256 + y / 8 % 8 * 32 + column
}

// The attribute of a cell of eight rows.
pub fn cell_address(y: usize, column: usize) -> usize
    requires { (y < 192) × (column < 32) }
    ensures { (result ≡ cell_address y column) × (result < 0x1B00) }
{
    0x1800 + y / 8 * 32 + column
}

// Mode 6: column c of 64.
pub fn hires_address(y: usize, column: usize) -> usize
    requires { (y < 192) × (column < 64) }
    ensures { (result ≡ hires_address y column) × (result < 16384) }
{
    byte_address(y, column / 2) + column % 2 * 0x2000
}

// Mode 6: the attribute of every column, from the port.
pub fn hires_attribute(port: u8) -> u8
    ensures { result ≡ hires_attribute port }
{
    let ink = port / 8 % 8;
    64 + (7 - ink) * 8 + ink
}

// LoRes: column c of 128 of a row of 96.
#[tactic(auto, unfolding(crate::specs::Bytes::lores_address))]
pub fn lores_address(row: usize, column: usize) -> usize
    requires { (row < 96) × (column < 128) }
    ensures { (result ≡ lores_address row column) × (result < 16384) }
{
    let at = row * 128 + column;
    if 48 <= row { at + 0x800 } else { at }
}

// A pixel of a byte; the leftmost is bit 7. As wide as a dot, so that eight dots are chosen at once.
pub fn bit_of(b: u8, x: usize) -> u16
    ensures { result ≡ bit_of b x }
{
    (u16::from(b) >> (7 - x % 8)) % 2
}
