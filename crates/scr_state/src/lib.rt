// A state made to show a screen file: LoRes and ULANext off, Timex modes allowed, port $FF, ULAplus and its registers.
#![tactic(auto)]

mod screen;

pub use screen::with_screen;
