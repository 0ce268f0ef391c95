// The palettes of a record: 256 colours, two bytes a colour, high first, read, judged and put. Every call here asks for bytes that
// reach as far as the palette does.
#![tactic(auto)]

mod reading;
mod writing;

pub use reading::{bad_colour, colours_at, is_palette};
pub use writing::put_colours;
