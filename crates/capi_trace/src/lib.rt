// The drawings by a trace for C, Rust and Python: numbers and slices only, as the calls of `capi` are. Each answers the reply's number.
#![tactic(auto)]

mod calls;

pub use calls::{narephon_draw_carried, narephon_draw_traced};
