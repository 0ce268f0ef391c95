// The calls on a desk for C, Rust and Python: numbers and slices only, as those of `capi` are. Each answers the reply's number.
#![tactic(auto)]

mod calls;

pub use calls::{
    narephon_desk_close, narephon_desk_draw, narephon_desk_next_frame, narephon_desk_open,
    narephon_desk_read_port, narephon_desk_read_register, narephon_desk_start,
    narephon_desk_write_port, narephon_desk_write_register,
};
