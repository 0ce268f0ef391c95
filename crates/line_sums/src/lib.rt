// Lines by their sums: the Adler-32 of a line's dots, by which drawn lines are compared with outside pictures, and whole
// pictures printed as the sums of their lines.
#![tactic(auto)]

mod adler;
mod pictures;

pub use adler::line_sum;
pub use pictures::{draw_case, print_lines};
