// Where the first bad field of a stored record stands: one walk over the parts, for bytes that are not sound. Every call here asks for as many
// bytes as a record has.
#![tactic(auto)]

mod faults;

pub use faults::first_bad;
