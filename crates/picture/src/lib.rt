// A drawn line as bytes of a picture file: a binary PPM of 640 by 512, each line of the surface twice.
#![tactic(auto)]

mod head;
mod pixels;

pub use head::header;
pub use pixels::line_pixels;
