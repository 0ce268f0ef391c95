// The drawings, the packer and the screen values for C, Rust and Python: numbers and slices only, as the calls of `capi` are. Each answers the reply's number.
#![tactic(auto)]

mod pictures;

pub use pictures::{
    narephon_draw, narephon_draw_layers, narephon_fewest, narephon_pack, narephon_screen_value,
};
