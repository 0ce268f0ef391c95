// The reply of a call that answers a value or a refusal.
ghost use Rattle.std.specs.Prelude.{◌≡◌};
ghost use Rattle.reply.specs.Answered.{reply_of};

use crate::Reply;

// Done where there is a value.
pub fn reply_of<T: Copy>(answer: Result<T, Reply>) -> Reply
    ensures { result ≡ reply_of answer }
{
    match answer {
        Ok(_) => Reply::Done,
        Err(refusal) => refusal,
    }
}
