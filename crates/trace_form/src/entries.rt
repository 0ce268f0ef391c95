// The entries of a trace.
ghost use Rattle.std.specs.Prelude.{◌≡◌, ◌≤◌, ◌<◌, length};
ghost use Rattle.trace_form.specs.Entries.{entry_count, entry_at};

// A write, stamped with the line before which it is done.
#[derive(Clone, Copy)]
pub struct Entry {
    pub line: u8,
    pub kind: u8,
    pub number: u8,
    pub value: u8,
}

// Asks for a trace that has its head.
pub fn entry_count(trace: &[u8]) -> usize
    requires { 3 ≤ length trace.now }
    ensures { result ≡ entry_count trace.now }
{
    (trace.len() - 3) / 4
}

// Asks for a place below the number of entries.
pub fn entry_at(trace: &[u8], i: usize) -> Entry
    requires { i < entry_count trace.now }
    ensures { result ≡ entry_at trace.now i }
{
    Entry {
        line: trace[i * 4 + 3],
        kind: trace[i * 4 + 4],
        number: trace[i * 4 + 5],
        value: trace[i * 4 + 6],
    }
}
