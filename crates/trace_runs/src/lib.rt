// What the entries of a trace make of a state, over its parts: small registers by value and the four palettes lent, since a whole state
// would be copied at each entry.
#![tactic(auto)]

mod runs;

pub use runs::{Carried, after_line, begin, is_due, try_due, try_next};
