// What the programs share: arguments, whole files by name, the lengths of records, rows of numbers, complaints on standard
// error, marked buffers.
#![tactic(auto)]

pub mod arguments;
pub mod complaints;
pub mod files;
pub mod marks;
pub mod records;
pub mod report;
