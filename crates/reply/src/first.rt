// The order of refusals.
ghost use Rattle.std.specs.Prelude.{◌≡◌};
ghost use Rattle.reply.specs.First.{first_of};

use crate::Reply;

// The first of two replies that refuses. By its case, so that an edit can name another.
#[tactic(auto, unfolding(crate::specs::First::first_of))]
pub fn first_of(first: Reply, next: Reply) -> Reply
    ensures { result ≡ first_of first next }
{
    match first {
        Reply::Done => next,
        _ => first,
    }
}
