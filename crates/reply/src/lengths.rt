// The refusal of a lent buffer for its length.
ghost use Rattle.std.specs.Prelude.{◌≡◌, cond, eqb};
ghost use Rattle.reply.specs.declared.Reply.TheVariants.{Done};

use crate::Reply;

// Done where a length is the one wanted.
pub fn length_reply(length: usize, wanted: usize, refusal: Reply) -> Reply
    ensures { result ≡ cond (eqb length wanted) Done refusal }
{
    if length == wanted {
        Reply::Done
    } else {
        refusal
    }
}
