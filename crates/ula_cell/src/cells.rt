// The cells of a row of the display, before the clip.
ghost use Rattle.std.specs.Prelude.{◌≡◌, cond, ℕ, ◌+◌, ◌*◌, ◌/◌, ◌≤◌, ◌<◌, length, ltb};
ghost use Rattle.lists.specs.Tab.{tab};
ghost use Rattle.ula_address.specs.Addresses.{bitmap_address, attribute_address};
ghost use Rattle.ula_scheme.specs.Bounds.{MaskBounds};
ghost use Rattle.ula_view.specs.Bounds.{ViewBounds};
ghost use Rattle.ula_cell.specs.Cells.{pixel_dot};
ghost use Rattle.ula_cell.specs.Rows.{chosen_dot, hires_chosen};

use ula_byte::bit_of;
use ula_scheme::Colours;
use ula_view::View;

// A bit of a byte chooses between two dots.
#[tactic(auto, unfolding(crate::specs::Rows::chosen_dot))]
fn choose_dot(b: u8, x: usize, bit1: u16, bit0: u16) -> u16
    ensures { result ≡ chosen_dot b x bit1 bit0 }
{
    if bit_of(b, x) == 1 { bit1 } else { bit0 }
}

// Eight pixels of two dots each.
fn pixels(b: u8, bit1: u16, bit0: u16, out: &mut [u16])
    requires { length out.old ≡ 16 }
    ensures { out.new ≡ tab (λ (k : ℕ). chosen_dot b (k / 2) bit1 bit0) 16 }
{
    for (k, dot) in out.iter_mut().enumerate() {
        *dot = choose_dot(b, k / 2, bit1, bit0);
    }
}

// The byte of dot k of sixteen.
fn byte_of(k: usize, even: u8, odd: u8) -> u8
    ensures { result ≡ cond (ltb k 8) even odd }
{
    if k < 8 { even } else { odd }
}

// Sixteen dots of mode 6, from two bytes: so many are chosen at once, where of eight the compiler chooses some one by one.
fn dots(even: u8, odd: u8, bit1: u16, bit0: u16, out: &mut [u16])
    requires { length out.old ≡ 16 }
    ensures { out.new ≡ tab (λ (k : ℕ). chosen_dot (cond (ltb k 8) even odd) k bit1 bit0) 16 }
{
    for (k, dot) in out.iter_mut().enumerate() {
        *dot = choose_dot(byte_of(k, even, odd), k, bit1, bit0);
    }
}

// Cell i of 32 of modes 0, 1 and 2. The row's bytes start at bits, its attributes at cells.
pub fn pixel_cell(
    p: View,
    bits: usize,
    cells: usize,
    l: Colours,
    pal: &[u16; 256],
    plus: &[u8; 64],
    bank: &[u8],
    i: usize,
    out: &mut [u16],
)
    requires { (ViewBounds p) × (bits ≡ bitmap_address p.mode p.row 0) × (cells ≡ attribute_address p.mode p.row 0) × (bits ≤ 16352) × (cells ≤ 16352) × (MaskBounds l)
        × (length bank.now ≡ 16384) × (i < 32) × (length out.old ≡ 16) }
    ensures { out.new ≡ tab (λ (k : ℕ). pixel_dot p l pal.now plus.now bank.now ((i * 16 + k) / 2)) 16 }
{
    let column = ula_scroll::cell_column(i, p.offset);
    let at = cells + column;
    let from = bits + column;
    let a = bank[at];
    let b = bank[from];
    let d = ula_attribute::bit_dots(l, pal, plus, a);
    pixels(b, d.bit1, d.bit0, out);
}

// Columns 2i and 2i + 1 of 64 of mode 6, whose two dots are the same all along the row.
pub fn hires_cell(p: View, bit1: u16, bit0: u16, bank: &[u8], i: usize, out: &mut [u16])
    requires { (ViewBounds p) × (length bank.now ≡ 16384) × (i < 32) × (length out.old ≡ 16) }
    ensures { out.new ≡ tab (λ (k : ℕ). hires_chosen p bit1 bit0 bank.now (i * 16 + k)) 16 }
{
    let row = p.row;
    let even = ula_scroll::hires_column(i * 2, p.offset);
    let odd = ula_scroll::hires_column(i * 2 + 1, p.offset);
    let at = ula_byte::hires_address(row, even);
    let next = ula_byte::hires_address(row, odd);
    dots(bank[at], bank[next], bit1, bit0, out);
}
