// What a drawing by a trace is refused for before any entry is tried: of one line, and of the whole call. A state's own reply is given: 4, or of a lent record 16,
// 17 or 18.
#![tactic(auto)]

ghost use Rattle.std.specs.Prelude.{◌≡◌, [], ◌∷◌};
ghost use Rattle.reply.specs.First.{first_hit};
ghost use Rattle.trace_form.specs.Judged.{trace_reply};
ghost use Rattle.trace_replies.specs.Replies.{asked_reply, whole_lengths, whole_reply};

use line_replies::{lengths_reply, line_reply};
use reply::{Reply, first_of};
use surface::LineNumber;
use trace_form::trace_reply;

// The state's own reply, which comes here and nowhere after, and then what refuses the trace.
fn own_then_trace(own: Reply, trace: &[u8]) -> Reply
    ensures { result ≡ first_hit (own ∷ trace_reply trace.now ∷ []) }
{
    first_of(own, trace_reply(trace))
}

// What refuses a line before its entries are tried.
pub fn asked_reply(
    line: LineNumber,
    ula: usize,
    tile: usize,
    out: usize,
    own: Reply,
    trace: &[u8],
) -> Reply
    ensures { result ≡ asked_reply line ula tile out own trace.now }
{
    let last = own_then_trace(own, trace);
    first_of(
        line_reply(line),
        first_of(lengths_reply(ula, tile, out), last),
    )
}

fn whole_lengths(ula: usize, tile: usize, dots: usize, replies: usize, places: usize) -> Reply
    ensures { result ≡ whole_lengths ula tile dots replies places }
{
    if (ula == 16384) & (tile == 16384) {
        if (dots == 163840) & (replies == 256) & (places == 256) {
            Reply::Done
        } else {
            Reply::BufferLength
        }
    } else {
        Reply::BankLength
    }
}

// What refuses the whole call.
pub fn whole_reply(
    ula: usize,
    tile: usize,
    dots: usize,
    replies: usize,
    places: usize,
    own: Reply,
    trace: &[u8],
) -> Reply
    ensures { result ≡ whole_reply ula tile dots replies places own trace.now }
{
    let last = own_then_trace(own, trace);
    first_of(whole_lengths(ula, tile, dots, replies, places), last)
}
