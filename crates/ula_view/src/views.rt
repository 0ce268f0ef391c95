// What of the state a line shows, read once a line.
ghost use Rattle.std.specs.Prelude.{◌≡◌, true, cond, ◌<◌, ◌≤◌};
ghost use Rattle.state_bits.specs.Bits.{ula_second_shown};
ghost use Rattle.register_bounds.specs.Bounds.{is_mask};
ghost use Rattle.surface.specs.Lines.{is_line};
ghost use Rattle.ula_view.specs.Views.{view_of, border_of, ula_line};
ghost use Rattle.ula_view.specs.Bounds.{ViewBounds, UlaLineBounds, shown_state};
ghost use Rattle.ula_scheme.specs.Bounds.{MaskBounds};

use state::{Palette, Ports, Ula};
use surface::LineNumber;
use ula_mode::Mode;
use ula_scheme::Colours;

// Which bytes a line of the display shows, and where its clip lets them show.
#[derive(Clone, Copy)]
pub struct View {
    pub mode: Mode,
    // The line and the pixels by which the scroll moves it.
    pub row: usize,
    pub offset: usize,
    // Mode 6's attribute.
    pub attribute: u8,
    pub visible: bool,
    pub left: usize,
    pub right: usize,
}

#[derive(Clone, Copy)]
pub struct UlaLine {
    pub on: bool,
    pub display: bool,
    pub border: u16,
    pub view: View,
    pub colours: Colours,
}

// The palette shown is lent, not copied.
pub fn ula_palette<'a>(p: Palette, first: &'a [u16; 256], second: &'a [u16; 256]) -> &'a [u16; 256]
    ensures { result.now ≡ cond (ula_second_shown p) second.now first.now }
{
    if state_bits::ula_second_shown(p) {
        second
    } else {
        first
    }
}

// Line y of the display.
#[tactic(auto, unfolding(crate::specs::Views::view_of))]
fn view_of(u: Ula, ports: Ports, clip: &[u8; 4], y: usize) -> View
    requires { y < 256 }
    ensures { (result ≡ view_of u ports clip.now y) × (ViewBounds result) }
{
    let mode = ula_mode::mode_of(u, ports);
    let scroll = ula_scroll::scroll_of(mode, u);
    let row = ula_scroll::scrolled_line(y, scroll.y);
    let attribute = ula_byte::hires_attribute(ports.timex);
    let top = usize::from(clip[2]);
    let bottom = usize::from(clip[3]);
    let visible = surface::is_inside(y, top, bottom);
    let left = usize::from(clip[0]);
    let right = usize::from(clip[1]);
    View {
        mode,
        row,
        offset: scroll.x,
        attribute,
        visible,
        left,
        right,
    }
}

// The dot of the border, in mode 6 the paper's.
#[tactic(auto, unfolding(crate::specs::Views::border_of))]
fn border_of(p: View, l: Colours, pal: &[u16; 256], plus: &[u8; 64], border: u8) -> u16
    requires { (MaskBounds l) × (border ≤ 7) }
    ensures { result ≡ border_of p l pal.now plus.now border }
{
    let mode = p.mode;
    let hires = mode.is_hires();
    ula_attribute::border_dot(l, pal, plus, hires, p.attribute, border)
}

// The drawer has judged the line, and a lawful state has such a mask and border.
pub fn ula_line(
    u: Ula,
    p: Palette,
    ports: Ports,
    frame: u8,
    clip: &[u8; 4],
    plus: &[u8; 64],
    pal: &[u16; 256],
    line: LineNumber,
) -> UlaLine
    requires { (is_mask p.mask ≡ true) × (ports.border ≤ 7) × (is_line line ≡ true) }
    ensures { (result ≡ ula_line (shown_state u p ports frame clip.now plus.now pal.now) pal.now line) × (UlaLineBounds result) }
{
    let view = view_of(u, ports, clip, surface::display_line(line));
    let colours = ula_scheme::colours_of(u, p, ports, frame);
    let border = border_of(view, colours, pal, plus, ports.border);
    let on = state_bits::ula_on(u);
    let display = surface::in_display(line);
    UlaLine {
        on,
        display,
        border,
        view,
        colours,
    }
}
