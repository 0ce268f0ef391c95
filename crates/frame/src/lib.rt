// The next frame of a state, and what frame after frame brings back.
#![tactic(auto)]

ghost use Rattle.std.specs.Prelude.{◌≡◌};
ghost use Rattle.frame.specs.Frame.{advanced, next_frame};

use reply::Reply;
use state::{Answer, State, lawful};

// The state one frame on, without the judgement of lawful: for calls that have judged it.
pub fn advance(s: State) -> State
    ensures { result ≡ advanced s }
{
    let next = s.frame.wrapping_add(1);
    let mut t = s;
    t.frame = next;
    t
}

// The state one frame on, or reply 4 and the same state.
pub fn next_frame(s: State) -> Answer
    ensures { result ≡ next_frame s }
{
    let t = advance(s);
    if lawful(s) {
        Answer {
            reply: Reply::Done,
            state: t,
        }
    } else {
        Answer {
            reply: Reply::NotLawful,
            state: s,
        }
    }
}
