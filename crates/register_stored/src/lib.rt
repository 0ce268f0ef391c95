// Writes to the registers that are stored as bytes: what each one keeps and what it refuses.
#![tactic(auto)]

mod tilemap;
mod ula;

pub use tilemap::{
    write_definitions, write_map, write_tile_attribute, write_tile_control, write_tile_transparent,
    write_tile_x_high, write_tile_x_low, write_tile_y,
};
pub use ula::{
    write_fallback, write_layers, write_lores_x, write_lores_y, write_peripheral,
    write_transparent, write_ula_control, write_ula_x, write_ula_y,
};
