// The 640 dots of a line: the display, and the border around it.
ghost use Rattle.std.specs.Prelude.{◌≡◌, true, ◌≤◌, length};
ghost use Rattle.lists.specs.Tab.{tab};
ghost use Rattle.register_bounds.specs.Bounds.{is_mask};
ghost use Rattle.surface.specs.Lines.{is_line};
ghost use Rattle.ula_view.specs.Bounds.{UlaLineBounds, shown_state};
ghost use Rattle.ula.specs.Lines.{row_dot, ula_dot};

use state::{Palette, Ports, Ula};
use surface::LineNumber;
use ula_display::display_row;
use ula_view::{UlaLine, ula_line};

// A line of the display between the two sides of the border.
fn framed_row(u: UlaLine, pal: &[u16; 256], plus: &[u8; 64], bank: &[u8], out: &mut [u16])
    requires { (UlaLineBounds u) × (u.on ≡ true) × (u.display ≡ true) × (length bank.now ≡ 16384) × (length out.old ≡ 640) }
    ensures { out.new ≡ tab (row_dot u pal.now plus.now bank.now) 640 }
{
    let p = u.view;
    let l = u.colours;
    let start = 0;
    let a = 64;
    let e = 576;
    let end = 640;
    surface_rows::paint(u.border, &mut out[start..a]);
    display_row(p, l, pal, plus, bank, &mut out[a..e]);
    surface_rows::paint(u.border, &mut out[e..end]);
}

fn line_row(u: UlaLine, pal: &[u16; 256], plus: &[u8; 64], bank: &[u8], out: &mut [u16])
    requires { (UlaLineBounds u) × (length bank.now ≡ 16384) × (length out.old ≡ 640) }
    ensures { out.new ≡ tab (row_dot u pal.now plus.now bank.now) 640 }
{
    if u.on {
        if u.display {
            framed_row(u, pal, plus, bank, out);
        } else {
            surface_rows::paint(u.border, out);
        }
    } else {
        surface_rows::paint(512, out);
    }
}

// The ULA's 640 dots of a line, 512 where transparent, of any state with these parts and this palette shown: a whole state would be
// copied at each call. The caller has judged the line and the lengths, and a lawful state has such a mask and border.
pub fn ula_row<'a>(
    u: Ula,
    p: Palette,
    ports: Ports,
    frame: u8,
    clip: &'a [u8; 4],
    plus: &'a [u8; 64],
    pal: &[u16; 256],
    bank: &[u8],
    line: LineNumber,
    out: &mut [u16],
)
    requires { (is_mask p.mask ≡ true) × (ports.border ≤ 7) × (is_line line ≡ true) × (length bank.now ≡ 16384) × (length out.old ≡ 640) }
    ensures { out.new ≡ tab (ula_dot (shown_state u p ports frame clip.now plus.now pal.now) bank.now line) 640 }
{
    let l = ula_line(u, p, ports, frame, clip, plus, pal, line);
    line_row(l, pal, plus, bank, out);
}
