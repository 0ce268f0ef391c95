// The line drawer: the ULA's row and the tilemap's composed, the fallback over them, and the refusals in their order.
#![tactic(auto)]

mod drawer;
mod lines;
mod parts;

pub use drawer::draw;
pub use lines::{composed_chosen, composed_line, composed_shown};
pub use parts::{Shown, shown_of};
