// What a drawing is refused for, in its order: the pieces of `line_replies`, and what is not lawful among them.
#![tactic(auto)]

ghost use Rattle.std.specs.Prelude.{◌≡◌};
ghost use Rattle.line_replies.specs.Replies.{draw_reply};

use line_replies::{lengths_reply, line_reply, state_reply};
use reply::{Reply, first_of};
use state::{State, lawful_reply};
use surface::LineNumber;

// The replies in their order; the first that refuses is the answer.
pub fn draw_reply(line: LineNumber, ula: usize, tile: usize, out: usize, s: State) -> Reply
    ensures { result ≡ draw_reply line ula tile out s }
{
    let lawful = lawful_reply(s);
    let state = state_reply(s.ula, s.tiles, s.palette, s.ports);
    let last = first_of(lawful, state);
    first_of(
        line_reply(line),
        first_of(lengths_reply(ula, tile, out), last),
    )
}
