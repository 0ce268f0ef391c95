// The bytes of the ULA's bank, by row and column: bitmap, attribute, mode 6 and LoRes, a pixel of a byte, and mode 6's attribute.
#![tactic(auto)]

mod bytes;

pub use bytes::{
    bit_of, byte_address, cell_address, hires_address, hires_attribute, lores_address,
};
