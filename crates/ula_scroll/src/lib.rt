// How far the display is moved: the two scrolls, and which line and which column of the bank's picture the display shows.
#![tactic(auto)]

mod columns;
mod scrolls;

pub use columns::{cell_column, hires_column, lores_column};
pub use scrolls::{Scroll, scroll_of, scrolled_line};
