// Lines 0 to 255, with the state carried along.
ghost use Rattle.std.specs.Prelude.{◌≡◌, true, length};
ghost use Rattle.reply.specs.declared.Reply.TheVariants.{Done};
ghost use Rattle.state.specs.Lawful.{lawful_state, lawful_reply};
ghost use Rattle.line_replies.specs.Replies.{drawn_if};
ghost use Rattle.trace_runs.specs.Bounds.{Sound};
ghost use Rattle.trace_replies.specs.Replies.{whole_reply};
ghost use Rattle.trace.specs.Carried.{carried_dots, carried_replies, carried_places};

use crate::lines::draw_run;
use register_parts::palettes_of;
use reply::Reply;
use state::State;
use surface::LineNumber;
use trace_replies::whole_reply;
use trace_runs::{begin, try_due};

// The run is carried on from the line before, so each entry is tried once. By numbers and not by `iter_mut` over the three buffers: of what is
// written to a lent chunk of dots only the length is known.
fn draw_lines(
    ula: &[u8],
    tile: &[u8],
    s: State,
    trace: &[u8],
    dots: &mut [u16],
    replies: &mut [u8],
    places: &mut [u16],
)
    requires { (Sound trace.now) × (lawful_state s ≡ true) × (length ula.now ≡ 16384) × (length tile.now ≡ 16384)
        × (length dots.old ≡ 163840) × (length replies.old ≡ 256) × (length places.old ≡ 256) }
    ensures { (dots.new ≡ carried_dots s trace.now ula.now tile.now dots.old)
        × (replies.new ≡ carried_replies s trace.now) × (places.new ≡ carried_places s trace.now) }
{
    let mut p = palettes_of(s);
    let mut run = begin(s);
    let mut count = 0;
    for line in 0..256 {
        try_due(trace, &mut count, line, &mut run, &mut p);
        let a = line * 640;
        let e = a + 640;
        let r = draw_run(run, &p, ula, tile, LineNumber(line), &mut dots[a..e]);
        replies[line] = u8::from(r);
        places[line] = run.place;
    }
}

// The lines of a state whose own reply is given: of a state 4, of one in a lent record 16, 17 or 18. Asks for one that is lawful where that
// refuses nothing.
pub fn draw_carried_as(
    own: Reply,
    ula: &[u8],
    tile: &[u8],
    s: State,
    trace: &[u8],
    dots: &mut [u16],
    replies: &mut [u8],
    places: &mut [u16],
) -> Reply
    requires { own ≡ Done → lawful_state s ≡ true }
    ensures { (result ≡ whole_reply (length ula.now) (length tile.now) (length dots.old) (length replies.old) (length places.old) own trace.now)
        × (dots.new ≡ drawn_if result (carried_dots s trace.now ula.now tile.now dots.old) dots.old)
        × (replies.new ≡ drawn_if result (carried_replies s trace.now) replies.old)
        × (places.new ≡ drawn_if result (carried_places s trace.now) places.old) }
{
    let r = whole_reply(
        ula.len(),
        tile.len(),
        dots.len(),
        replies.len(),
        places.len(),
        own,
        trace,
    );
    if r.is_done() {
        draw_lines(ula, tile, s, trace, dots, replies, places);
    }
    r
}

// Lines 0 to 255 one after the other, each with its reply's number and its place, as if asked for alone; or the reply that
// refuses the whole call and leaves all three buffers.
pub fn draw_carried(
    ula: &[u8],
    tile: &[u8],
    s: State,
    trace: &[u8],
    dots: &mut [u16],
    replies: &mut [u8],
    places: &mut [u16],
) -> Reply
    ensures { (result ≡ whole_reply (length ula.now) (length tile.now) (length dots.old) (length replies.old) (length places.old) (lawful_reply s) trace.now)
        × (dots.new ≡ drawn_if result (carried_dots s trace.now ula.now tile.now dots.old) dots.old)
        × (replies.new ≡ drawn_if result (carried_replies s trace.now) replies.old)
        × (places.new ≡ drawn_if result (carried_places s trace.now) places.old) }
{
    let own = state::lawful_reply(s);
    draw_carried_as(own, ula, tile, s, trace, dots, replies, places)
}
