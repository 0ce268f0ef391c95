// How far the display is moved.
ghost use Rattle.std.specs.Prelude.{◌≡◌, ◌<◌};
ghost use Rattle.ula_scroll.specs.Scrolls.{scroll_of, line_read};
ghost use Rattle.ula_scroll.specs.Bounds.{ScrollBounds};

use state::Ula;
use ula_mode::Mode;

// Pixels to the left and lines up.
#[derive(Clone, Copy)]
pub struct Scroll {
    pub x: usize,
    pub y: usize,
}

// LoRes has a scroll of its own, $32 and $33; the other modes have $26 and $27.
#[tactic(auto, unfolding(crate::specs::Scrolls::scroll_of))]
pub fn scroll_of(mode: Mode, u: Ula) -> Scroll
    ensures { (result ≡ scroll_of mode u) × (ScrollBounds result) }
{
    let (x, y) = if mode.is_lores() {
        (u.loresx, u.loresy)
    } else {
        (u.x, u.y)
    };
    Scroll {
        x: usize::from(x),
        y: usize::from(y),
    }
}

// The line of the bank's picture that line y of the display shows. Both are small, so that the sum fits.
pub fn scrolled_line(y: usize, offset: usize) -> usize
    requires { (y < 256) × (offset < 256) }
    ensures { (result ≡ line_read y offset) × (result < 192) }
{
    (y + offset) % 192
}
