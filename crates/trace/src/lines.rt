// The line of a run, by the parts of its state.
ghost use Rattle.std.specs.Prelude.{◌≡◌, true, length};
ghost use Rattle.state.specs.Lawful.{lawful_state};
ghost use Rattle.surface.specs.Lines.{is_line};
ghost use Rattle.register_parts.specs.Parts.{state_with};
ghost use Rattle.line.specs.Lines.{drawn_line};
ghost use Rattle.trace_runs.specs.Bounds.{run_with};
ghost use Rattle.trace_replies.specs.Replies.{run_reply};
ghost use Rattle.trace.specs.Lines.{run_dots};

use register_parts::{Palettes, Registers};
use reply::Reply;
use surface::LineNumber;
use trace_runs::Carried;

// The finished line of a state that is lawful: nothing here asks for it again.
fn draw_parts(
    g: Registers,
    p: &Palettes,
    ula: &[u8],
    tile: &[u8],
    line: LineNumber,
    out: &mut [u16],
)
    requires { (lawful_state (state_with g p.now) ≡ true) × (is_line line ≡ true)
        × (length ula.now ≡ 16384) × (length tile.now ≡ 16384) × (length out.old ≡ 640) }
    ensures { out.new ≡ drawn_line (state_with g p.now)
        ula.now tile.now line }
{
    let v = line::shown_of(g);
    line::composed_chosen(
        v,
        &p.ulafirst,
        &p.ulasecond,
        &p.tilefirst,
        &p.tilesecond,
        ula,
        tile,
        line,
        out,
    );
    line_dots::finish_line(colour::widen(g.ula.fallback), out);
}

// The line of a run whose state is lawful, or what refuses it: a refused entry, or the state.
pub fn draw_run(
    run: Carried,
    p: &Palettes,
    ula: &[u8],
    tile: &[u8],
    line: LineNumber,
    out: &mut [u16],
) -> Reply
    requires { (lawful_state (state_with run.registers p.now) ≡ true) × (is_line line ≡ true)
        × (length ula.now ≡ 16384) × (length tile.now ≡ 16384) × (length out.old ≡ 640) }
    ensures { (result ≡ run_reply (run_with run p.now))
        × (out.new ≡ run_dots (run_with run p.now)
        ula.now tile.now line out.old) }
{
    let g = run.registers;
    let refused = run.reply;
    let state = line_replies::state_reply(g.ula, g.tiles, g.palette, g.ports);
    let r = reply::first_of(refused, state);
    if r.is_done() {
        draw_parts(g, p, ula, tile, line, out);
    }
    r
}
