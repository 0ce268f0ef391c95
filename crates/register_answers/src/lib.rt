// What a write and a read answer: done, or refused with everything as it was. Writes answer on the parts of a state.
#![tactic(auto)]

ghost use Rattle.std.specs.Prelude.{◌≡◌};
ghost use Rattle.reply.specs.declared.Reply.TheVariants.{NoRegister, OutOfBounds};
ghost use Rattle.state.specs.Answer.{done, refused};
ghost use Rattle.register_parts.specs.Parts.{bare, written_of};
ghost use Rattle.register_answers.specs.Answers.{if_fits};

mod reads;

pub use reads::no_read;
use register_parts::{Registers, Written};
use reply::Reply;
use state::{Answer, State};

// For calls on a whole state.
pub fn accept(s: State) -> Answer
    ensures { result ≡ done s }
{
    Answer {
        reply: Reply::Done,
        state: s,
    }
}

pub fn accept_apart(g: Registers) -> Written
    ensures { result ≡ written_of (done (bare g)) }
{
    Written {
        reply: Reply::Done,
        registers: g,
    }
}

// Reply 10.
pub fn out_of_bounds(g: Registers) -> Written
    ensures { result ≡ written_of (refused OutOfBounds (bare g)) }
{
    Written {
        reply: Reply::OutOfBounds,
        registers: g,
    }
}

// The changed registers where the value is within its bounds, else the registers as they were.
pub fn if_fits(ok: bool, changed: Registers, g: Registers) -> Written
    ensures { result ≡ written_of (if_fits ok (bare changed) (bare g)) }
{
    if ok {
        accept_apart(changed)
    } else {
        out_of_bounds(g)
    }
}

// Reply 9 to a write.
pub fn no_write(g: Registers) -> Written
    ensures { result ≡ written_of (refused NoRegister (bare g)) }
{
    Written {
        reply: Reply::NoRegister,
        registers: g,
    }
}
