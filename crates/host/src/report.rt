// Rows on the stream that is passed.
use std::io;

// A line `label value` for each.
pub fn rows(to: &impl Print, rows: &[(&str, u8)]) -> io::Result<()> {
    for (label, value) in rows {
        println!(to; "{label} {value}")?;
    }
    Ok(())
}
