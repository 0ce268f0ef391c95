// What a trace is refused for.
ghost use Rattle.std.specs.Prelude.{◌≡◌, true, cond};
ghost use Rattle.reply.specs.declared.Reply.TheVariants.{Done, BadTrace, LinesFall};
ghost use Rattle.trace_form.specs.Judged.{headed, known, all_known, rising, trace_reply};

use crate::entries::{Entry, entry_at, entry_count};
use reply::Reply;

// The head counts the bytes after it, the version is read here, and no entry is cut short.
#[tactic(auto, unfolding(crate::specs::Judged::headed))]
fn is_headed(trace: &[u8]) -> bool
    ensures { result ≡ headed trace.now }
{
    if trace.len() < 3 {
        return false;
    }
    let counted = usize::from(trace[0]) * 256 + usize::from(trace[1]);
    (counted == trace.len() - 2) & (trace[2] == 1) & ((trace.len() - 3) % 4 == 0)
}

fn is_known(e: Entry) -> bool
    ensures { result ≡ known e }
{
    (e.kind == 0) | ((e.kind == 1) & (e.number <= 3))
}

// Each entry is looked at once, without an early end, since 25 of a later one comes before 26. By number, since `entry_at` is what a run reads its
// entries by too: chunks would be a second reading of the same bytes. Asks for a whole head.
#[tactic(auto, using(crate::proofs::Judged::long_enough, crate::proofs::Judged::known_more, crate::proofs::Judged::rising_more, crate::proofs::Judged::before_more, crate::proofs::Judged::all_judged))]
fn entries_reply(trace: &[u8]) -> Reply
    requires { headed trace.now ≡ true }
    ensures { result ≡ cond (all_known trace.now) (cond (rising trace.now) Done LinesFall) BadTrace }
{
    let n = entry_count(trace);
    let mut all_known = true;
    let mut all_rise = true;
    let mut last: u8 = 0;
    for i in 0..n {
        let e = entry_at(trace, i);
        all_known = is_known(e) & all_known;
        all_rise = (last <= e.line) & all_rise;
        last = e.line;
    }
    if all_known {
        if all_rise {
            Reply::Done
        } else {
            Reply::LinesFall
        }
    } else {
        Reply::BadTrace
    }
}

// The refusal of a trace, whatever its bytes.
#[tactic(auto, using(crate::proofs::Judged::head_whole, crate::proofs::Judged::head_broken))]
pub fn trace_reply(trace: &[u8]) -> Reply
    ensures { result ≡ trace_reply trace.now }
{
    if is_headed(trace) {
        entries_reply(trace)
    } else {
        Reply::BadTrace
    }
}
