// Entries applied to a state in parts, one after the other.
ghost use Rattle.std.specs.Prelude.{◌≡◌, cond, ◌≤◌, ◌<◌, length, ltb};
ghost use Rattle.reply.specs.Reply.{is_done};
ghost use Rattle.register_parts.specs.Parts.{state_with, answer_with};
ghost use Rattle.trace_form.specs.Entries.{entry_count, entry_at};
ghost use Rattle.trace_runs.specs.Runs.{Run, port_number, applied, tried};
ghost use Rattle.trace_runs.specs.Bounds.{run_with, begun_with, reach, first, Sound};

use register_parts::{Palettes, Registers, Written};
use reply::Reply;
use state::State;
use trace_form::{Entry, entry_at, entry_count};

// What is carried from entry to entry besides the palettes: the reply and the place of a refused one, or done and 0, and the registers. Not a
// `Result`: a refused run still has its registers, and each line of a carried drawing tells reply and place.
#[derive(Clone, Copy)]
pub struct Carried {
    pub reply: Reply,
    pub place: u16,
    pub registers: Registers,
}

pub fn begin(s: State) -> Carried
    ensures { result ≡ begun_with s }
{
    let registers = register_parts::registers_of(s);
    Carried {
        reply: Reply::Done,
        place: 0,
        registers,
    }
}

fn port_number(n: u8) -> u16
    ensures { result ≡ port_number n }
{
    match n {
        0 => 0x00FE,
        1 => 0x00FF,
        2 => 0xBF3B,
        _ => 0xFF3B,
    }
}

// An entry's write. The state was judged when the run began, and no write judges it again.
fn apply(g: Registers, e: Entry, p: &mut Palettes) -> Written
    ensures { answer_with result p.new
        ≡ applied (state_with g p.old) e }
{
    if e.kind == 0 {
        register_tables::write_apart(g, e.number, e.value, p)
    } else {
        register_ports::write_port_apart(g, port_number(e.number), e.value)
    }
}

// The place is told of a refused entry.
fn told_place(r: Reply, i: u16) -> u16
    ensures { result ≡ cond (is_done r) 0 i }
{
    if r.is_done() { 0 } else { i }
}

// Entry i, unless one before it was refused.
fn try_entry(e: Entry, i: u16, run: Carried, p: &mut Palettes) -> Carried
    ensures { run_with result p.new
        ≡ tried e i (run_with run p.old) }
{
    let before = run.reply;
    if before.is_done() {
        let g = run.registers;
        let w = apply(g, e, p);
        let reply = w.reply;
        let registers = w.registers;
        let place = told_place(reply, i);
        Carried {
            reply,
            place,
            registers,
        }
    } else {
        run
    }
}

// There is an entry next that is stamped with the line or less. Asks for a place that no line before has passed over.
pub fn is_due(trace: &[u8], count: usize, line: usize) -> bool
    requires { (3 ≤ length trace.now) × (count ≤ reach trace.now line) }
    ensures { result ≡ ltb count (reach trace.now line) }
{
    if count < entry_count(trace) {
        let e = entry_at(trace, count);
        usize::from(e.line) <= line
    } else {
        false
    }
}

// Entry i, which is due.
pub fn try_next(trace: &[u8], i: usize, run: Carried, p: &mut Palettes) -> Carried
    requires { (length trace.now ≤ 65537) × (i < entry_count trace.now) }
    ensures { run_with result p.new
        ≡ tried (entry_at trace.now i) i (run_with run p.old) }
{
    let e = entry_at(trace, i);
    try_entry(e, i as u16, run, p)
}

// Tries the entries from `count` on that are stamped with the line or less, and moves `count` past them. The run is lent, so that nothing of it
// moves where none is due. Asks for a trace that is judged, and for a place that no line before has passed over.
pub fn try_due(trace: &[u8], count: &mut usize, line: usize, run: &mut Carried, p: &mut Palettes)
    requires { (Sound trace.now) × (count.old ≤ reach trace.now line) }
    ensures { (count.new ≡ reach trace.now line)
        × ((r : Run) → run_with run.old p.old ≡ first trace.now count.old r → run_with run.new p.new ≡ first trace.now (reach trace.now line) r) }
{
    while is_due(trace, *count, line) {
        *run = try_next(trace, *count, *run, p);
        *count += 1;
    }
}

// The run after every entry stamped with the line or less. Asks for a trace that is judged.
pub fn after_line(trace: &[u8], line: usize, begun: Carried, p: &mut Palettes) -> Carried
    requires { Sound trace.now }
    ensures { run_with result p.new ≡ first trace.now (reach trace.now line) (run_with begun p.old) }
{
    let mut count = 0;
    let mut run = begun;
    try_due(trace, &mut count, line, &mut run, p);
    run
}
