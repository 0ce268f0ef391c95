// The lent lines with a composed row.
ghost use Rattle.std.specs.Prelude.{◌≡◌, ◌≤◌, get_or};
ghost use Rattle.state_bits.specs.Bits.{layer_order};
ghost use Rattle.lists.specs.Tab.{tab};
ghost use Rattle.layer_dots.specs.Orders.{layered, layered_row};
ghost use Rattle.layer_dots.specs.Laid.{level_over, LaidBounds, LayerBounds};

use crate::dots::level_over;
use state::Ula;

// The upper and the lower lent line with the row at its level among them.
fn lay_level(level: u8, fallback: u16, upper: &[u16], lower: &[u16], row: &mut [u16])
    requires { LaidBounds fallback upper.now lower.now row.old }
    ensures { row.new ≡ tab (λ k. level_over level fallback (get_or upper.now k 0) (get_or lower.now k 0) (get_or row.old k 0)) 640 }
{
    for (k, dot) in row.iter_mut().enumerate() {
        *dot = level_over(level, fallback, upper[k], lower[k], *dot);
    }
}

// An order's bit 0 puts Layer 2 above the sprites; its upper bits count the lent lines that are under the row.
fn lay_order(order: u8, fallback: u16, layer2: &[u16], sprites: &[u16], row: &mut [u16])
    requires { (LayerBounds order layer2.now sprites.now row.old) × (fallback ≤ 511) }
    ensures { row.new ≡ layered order fallback sprites.now layer2.now row.old }
{
    if order % 2 == 0 {
        lay_level(order / 2, fallback, sprites, layer2, row);
    } else {
        lay_level(order / 2, fallback, layer2, sprites, row);
    }
}

// The lent lines over and under a composed row, by the order in the registers, and their fallback.
pub fn lay_layers(u: Ula, layer2: &[u16], sprites: &[u16], row: &mut [u16])
    requires { LayerBounds (layer_order u) layer2.now sprites.now row.old }
    ensures { row.new ≡ layered_row u sprites.now layer2.now row.old }
{
    let fallback = colour::widen(u.fallback);
    lay_order(state_bits::layer_order(u), fallback, layer2, sprites, row);
}
