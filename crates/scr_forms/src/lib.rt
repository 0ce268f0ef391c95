// The forms of a screen file: what of a bank each has, and which one a file has.
#![tactic(auto)]

mod files;
mod forms;

pub use files::{Shape, colours_size, port_in, shape_of};
pub use forms::{Row, form_reply, row_of};
