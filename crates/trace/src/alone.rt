// One line alone.
ghost use Rattle.std.specs.Prelude.{◌≡◌, true, length};
ghost use Rattle.reply.specs.declared.Reply.TheVariants.{Done};
ghost use Rattle.state.specs.Lawful.{lawful_state, lawful_reply};
ghost use Rattle.surface.specs.Lines.{is_line};
ghost use Rattle.trace_runs.specs.Runs.{after};
ghost use Rattle.trace_runs.specs.Bounds.{Sound};
ghost use Rattle.trace.specs.Lines.{run_traced, run_dots, traced_answer, traced_dots};

use crate::lines::draw_run;
use register_parts::palettes_of;
use reply::Reply;
use state::State;
use surface::LineNumber;
use trace_replies::asked_reply;
use trace_runs::{after_line, begin};

// What a line is answered: its reply, and the place of a refused entry, 0 with every other reply. Not a `Result`: the C interface tells both
// numbers of each line, done or not.
#[derive(Clone, Copy)]
pub struct Traced {
    pub reply: Reply,
    pub place: u16,
}

// A line where all that comes before its entries is judged.
fn draw_judged(
    line: LineNumber,
    ula: &[u8],
    tile: &[u8],
    s: State,
    trace: &[u8],
    out: &mut [u16],
) -> Traced
    requires { (Sound trace.now) × (lawful_state s ≡ true) × (is_line line ≡ true) × (length ula.now ≡ 16384) × (length tile.now ≡ 16384) × (length out.old ≡ 640) }
    ensures { (result ≡ run_traced (after s trace.now line.0))
        × (out.new ≡ run_dots (after s trace.now line.0) ula.now tile.now line out.old) }
{
    let mut p = palettes_of(s);
    let run = after_line(trace, line.0, begin(s), &mut p);
    let reply = draw_run(run, &p, ula, tile, line, out);
    Traced {
        reply,
        place: run.place,
    }
}

// A line of a state whose own reply is given: of a state 4, of one in a lent record 16, 17 or 18. Asks for one that is lawful where that
// refuses nothing.
pub fn draw_traced_as(
    own: Reply,
    line: LineNumber,
    ula: &[u8],
    tile: &[u8],
    s: State,
    trace: &[u8],
    out: &mut [u16],
) -> Traced
    requires { own ≡ Done → lawful_state s ≡ true }
    ensures { (result ≡ traced_answer own line ula.now tile.now out.old s trace.now)
        × (out.new ≡ traced_dots own line ula.now tile.now out.old s trace.now) }
{
    let r = asked_reply(line, ula.len(), tile.len(), out.len(), own, trace);
    if r.is_done() {
        draw_judged(line, ula, tile, s, trace, out)
    } else {
        Traced { reply: r, place: 0 }
    }
}

// The 640 dots of a line by the state after every entry stamped with it or less; or the reply that refuses it, with a
// refused entry's place, and the lent line as it was.
pub fn draw_traced(
    line: LineNumber,
    ula: &[u8],
    tile: &[u8],
    s: State,
    trace: &[u8],
    out: &mut [u16],
) -> Traced
    ensures { (result ≡ traced_answer (lawful_reply s) line ula.now tile.now out.old s trace.now)
        × (out.new ≡ traced_dots (lawful_reply s) line ula.now tile.now out.old s trace.now) }
{
    let own = state::lawful_reply(s);
    draw_traced_as(own, line, ula, tile, s, trace, out)
}
