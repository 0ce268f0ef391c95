// What refuses lent lines.
ghost use Rattle.std.specs.Prelude.{◌≡◌, ◌≤◌, ◌-◌, [], ◌∷◌, length, eqb};
ghost use Rattle.lists.specs.Search.{all};
ghost use Rattle.reply.specs.First.{first_hit};
ghost use Rattle.layer_dots.specs.Numbers.{layer2_allowed, both_allowed, lent_reply, order_reply, numbers_reply};

use crate::dots::toggle;
use reply::{Reply, first_of};
use state::Ula;

// Done where both lent lines have their length.
pub fn lent_reply(layer2: usize, sprites: usize) -> Reply
    ensures { result ≡ lent_reply layer2 sprites }
{
    if (layer2 == 640) & (sprites == 640) {
        Reply::Done
    } else {
        Reply::BufferLength
    }
}

// Done where $15 gives one of the six orders.
fn order_reply(u: Ula) -> Reply
    ensures { result ≡ order_reply u }
{
    if state_bits::layer_order(u) <= 5 {
        Reply::Done
    } else {
        Reply::NoOrder
    }
}

fn above_512(n: u16) -> u16
    ensures { (result ≡ n - 512) × (result ≤ 65023) }
{
    if n > 512 { n - 512 } else { 0 }
}

// 0 exactly where a number of Layer 2 is allowed. Less 512 the allowed ones are 0 and 512 to 1,023; with bit 9 the other way 512 and 0 to
// 511; so that 512 less again leaves 0 of these and of no other.
fn layer2_excess(n: u16) -> u16
    ensures { eqb result 0 ≡ layer2_allowed n }
{
    above_512(toggle(above_512(n)))
}

// Every number is looked at, and what is too much is gathered without a test, so that the loop can be vectorised. By
// places, since it reads two lines: pairs of both would be no plainer.
fn all_allowed(layer2: &[u16], sprites: &[u16]) -> bool
    requires { (length layer2.now ≡ 640) × (length sprites.now ≡ 640) }
    ensures { result ≡ all (both_allowed layer2.now sprites.now) 640 }
{
    let mut excess = 0u16;
    for k in 0..640 {
        excess |= layer2_excess(layer2[k]) | above_512(sprites[k]);
    }
    excess == 0
}

// Done where every number of both lines is allowed.
fn numbers_reply(layer2: &[u16], sprites: &[u16]) -> Reply
    requires { (length layer2.now ≡ 640) × (length sprites.now ≡ 640) }
    ensures { result ≡ numbers_reply layer2.now sprites.now }
{
    if all_allowed(layer2, sprites) {
        Reply::Done
    } else {
        Reply::BadDot
    }
}

// What refuses lent lines where their lengths are judged: the order, then the numbers.
pub fn layers_reply(u: Ula, layer2: &[u16], sprites: &[u16]) -> Reply
    requires { (length layer2.now ≡ 640) × (length sprites.now ≡ 640) }
    ensures { result ≡ first_hit (order_reply u ∷ numbers_reply layer2.now sprites.now ∷ []) }
{
    first_of(order_reply(u), numbers_reply(layer2, sprites))
}
