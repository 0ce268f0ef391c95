// The drawer.
ghost use Rattle.std.specs.Prelude.{◌≡◌, true, length};
ghost use Rattle.state.specs.Lawful.{lawful_state};
ghost use Rattle.surface.specs.Lines.{is_line};
ghost use Rattle.line_replies.specs.Replies.{draw_reply, drawn_if};
ghost use Rattle.line.specs.Lines.{drawn_line};

use crate::lines::composed_line;
use line_dots::finish_line;
use line_order::draw_reply;
use reply::Reply;
use state::State;
use surface::LineNumber;

// The line of a state that is lawful, where line and lengths are judged.
fn draw_line(s: State, line: LineNumber, ula: &[u8], tile: &[u8], out: &mut [u16])
    requires { (lawful_state s ≡ true) × (is_line line ≡ true) × (length ula.now ≡ 16384) × (length tile.now ≡ 16384) × (length out.old ≡ 640) }
    ensures { out.new ≡ drawn_line s ula.now tile.now line }
{
    composed_line(s, line, ula, tile, out);
    finish_line(colour::widen(s.ula.fallback), out);
}

// The 640 dots of a line, or the reply that refuses it and leaves the lent line.
pub fn draw(line: LineNumber, ula: &[u8], tile: &[u8], s: State, out: &mut [u16]) -> Reply
    ensures { (result ≡ draw_reply line (length ula.now) (length tile.now) (length out.old) s)
        × (out.new ≡ drawn_if (draw_reply line (length ula.now) (length tile.now) (length out.old) s)
        (drawn_line s ula.now tile.now line) out.old) }
{
    let r = draw_reply(line, ula.len(), tile.len(), out.len(), s);
    if r.is_done() {
        draw_line(s, line, ula, tile, out);
    }
    r
}
