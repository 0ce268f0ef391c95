// The rows of the display in each mode, and the row within its clip.
ghost use Rattle.std.specs.Prelude.{◌≡◌, ℕ, ◌/◌, ◌<◌, length};
ghost use Rattle.lists.specs.Tab.{tab};
ghost use Rattle.ula_scheme.specs.Bounds.{MaskBounds};
ghost use Rattle.ula_view.specs.Bounds.{ViewBounds};
ghost use Rattle.ula_cell.specs.Cells.{pixel_dot};
ghost use Rattle.ula_cell.specs.Rows.{hires_chosen};
ghost use Rattle.ula_display.specs.Display.{lores_dot, mode_dot, display_dot};
ghost use Rattle.ula_display.specs.Rows.{lores_shade};

use ula_cell::{hires_cell, pixel_cell};
use ula_scheme::Colours;
use ula_view::View;

fn pixel_row(p: View, l: Colours, pal: &[u16; 256], plus: &[u8; 64], bank: &[u8], out: &mut [u16])
    requires { (ViewBounds p) × (MaskBounds l) × (length bank.now ≡ 16384) × (length out.old ≡ 512) }
    ensures { out.new ≡ tab (λ (d : ℕ). pixel_dot p l pal.now plus.now bank.now (d / 2)) 512 }
{
    let mode = p.mode;
    let row = p.row;
    let bits = ula_address::bitmap_address(mode, row, 0);
    let cells = ula_address::attribute_address(mode, row, 0);
    // A cell is lent by its place: of the parts of `chunks_exact_mut` a proof knows no dot afterwards.
    for i in 0..32 {
        let a = i * 16;
        let e = a + 16;
        pixel_cell(p, bits, cells, l, pal, plus, bank, i, &mut out[a..e]);
    }
}

fn hires_row(p: View, bit1: u16, bit0: u16, bank: &[u8], out: &mut [u16])
    requires { (ViewBounds p) × (length bank.now ≡ 16384) × (length out.old ≡ 512) }
    ensures { out.new ≡ tab (hires_chosen p bit1 bit0 bank.now) 512 }
{
    // Lent by their place, as the cells of `pixel_row`.
    for i in 0..32 {
        let a = i * 16;
        let e = a + 16;
        hires_cell(p, bit1, bit0, bank, i, &mut out[a..e]);
    }
}

// The dots of the 128 columns of a LoRes row, which its 256 pixels share.
fn lores_shades(row: usize, transparent: u8, pal: &[u16; 256], bank: &[u8], out: &mut [u16])
    requires { (row < 96) × (length bank.now ≡ 16384) × (length out.old ≡ 128) }
    ensures { out.new ≡ tab (lores_shade row transparent pal.now bank.now) 128 }
{
    for (c, dot) in out.iter_mut().enumerate() {
        let at = ula_byte::lores_address(row, c);
        *dot = surface::show(transparent, pal[usize::from(bank[at])]);
    }
}

fn lores_row(p: View, l: Colours, pal: &[u16; 256], bank: &[u8], out: &mut [u16])
    requires { (ViewBounds p) × (length bank.now ≡ 16384) × (length out.old ≡ 512) }
    ensures { out.new ≡ tab (λ (d : ℕ). lores_dot p l pal.now bank.now (d / 2)) 512 }
{
    let mut shades = [0u16; 128];
    lores_shades(p.row / 2, l.transparent, pal, bank, &mut shades);
    for (d, dot) in out.iter_mut().enumerate() {
        *dot = shades[ula_scroll::lores_column(d / 2, p.offset)];
    }
}

fn mode_row(p: View, l: Colours, pal: &[u16; 256], plus: &[u8; 64], bank: &[u8], out: &mut [u16])
    requires { (ViewBounds p) × (MaskBounds l) × (length bank.now ≡ 16384) × (length out.old ≡ 512) }
    ensures { out.new ≡ tab (mode_dot p l pal.now plus.now bank.now) 512 }
{
    let mode = p.mode;
    if mode.is_lores() {
        lores_row(p, l, pal, bank, out);
    } else {
        if mode.is_hires() {
            let d = ula_attribute::bit_dots(l, pal, plus, p.attribute);
            hires_row(p, d.bit1, d.bit0, bank, out);
        } else {
            pixel_row(p, l, pal, plus, bank, out);
        }
    }
}

// The 512 dots of a line of the display.
pub fn display_row(
    p: View,
    l: Colours,
    pal: &[u16; 256],
    plus: &[u8; 64],
    bank: &[u8],
    out: &mut [u16],
)
    requires { (ViewBounds p) × (MaskBounds l) × (length bank.now ≡ 16384) × (length out.old ≡ 512) }
    ensures { out.new ≡ tab (display_dot p l pal.now plus.now bank.now) 512 }
{
    if p.visible {
        mode_row(p, l, pal, plus, bank, out);
        surface_rows::clip_dots(p.left, p.right, out);
    } else {
        surface_rows::paint(512, out);
    }
}
