// Where the parts of a stored record stand, in code: each place by name, what a version adds to it, and the palettes that a line shows.
#![tactic(auto)]

pub mod places;
mod shown;
mod versions;

pub use shown::{tile_place, ula_place};
pub use versions::{
    added, following_of, head_of, in_version, length_of, number_of, other_version, version_of,
};
