// What the bits of the registers mean: which bit turns what on, and the numbers that two bytes or a width make.
#![tactic(auto)]

mod bits;

pub use bits::{
    columns_of, columns80, index_stays, layer_order, lores_on, next_on, one_byte_entries,
    stencil_set, tile_second_shown, tilemap_on, timex_on, ula_on, ula_second_shown, width_of,
    x_offset,
};
