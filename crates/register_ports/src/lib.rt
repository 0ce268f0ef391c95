// The four ports, each at its exact 16-bit number.
#![tactic(auto)]

ghost use Rattle.std.specs.Prelude.{◌≡◌};
ghost use Rattle.register_answers.specs.Rows.{write_by, read_by};
ghost use Rattle.register_parts.specs.Parts.{bare, written_of};
ghost use Rattle.register_ports.specs.Ports.{border_written, timex_written, select_written, mode_written, plus_written, timex_read, plus_read, port_writes, port_reads};

use register_answers::{accept_apart, if_fits, no_read, no_write};
use register_bounds::select_fits;
use register_parts::{Registers, Written, answer_with, palettes_of, registers_of};
use reply::Reply;
use state::{Answer, State};
use state_bits::timex_on;

// $FE
fn write_border(g: Registers, value: u8) -> Written
    ensures { result ≡ written_of (border_written (bare g) value) }
{
    let border = value % 8;
    let mut t = g;
    t.ports.border = border;
    accept_apart(t)
}

// $FF
fn write_timex(g: Registers, value: u8) -> Written
    ensures { result ≡ written_of (timex_written (bare g) value) }
{
    let mut t = g;
    t.ports.timex = value;
    accept_apart(t)
}

// $BF3B
fn write_select(g: Registers, value: u8) -> Written
    ensures { result ≡ written_of (select_written (bare g) value) }
{
    let ok = select_fits(value);
    let mut t = g;
    t.ports.select = value;
    if_fits(ok, t, g)
}

// $FF3B in the mode group.
fn write_mode(g: Registers, value: u8) -> Written
    ensures { result ≡ written_of (mode_written (bare g) value) }
{
    let on = value % 2 == 1;
    let mut t = g;
    t.ports.plus = on;
    accept_apart(t)
}

// $FF3B
fn write_plus(g: Registers, value: u8) -> Written
    ensures { result ≡ written_of (plus_written (bare g) value) }
{
    let select = g.ports.select;
    if 64 <= select {
        write_mode(g, value)
    } else {
        let i = select as usize;
        let mut t = g;
        t.plus[i] = value;
        accept_apart(t)
    }
}

// $FF
fn read_timex(s: State) -> Result<u8, Reply>
    ensures { result ≡ timex_read s }
{
    if timex_on(s.ula) {
        Ok(s.ports.timex)
    } else {
        no_read()
    }
}

// $FF3B
fn read_plus(s: State) -> Result<u8, Reply>
    ensures { result ≡ plus_read s }
{
    let select = s.ports.select;
    if 64 <= select {
        let on = s.ports.plus;
        Ok(on as u8)
    } else {
        let i = select as usize;
        Ok(s.plus[i])
    }
}

// The write by port to the registers alone: no port touches a palette.
pub fn write_port_apart(g: Registers, port: u16, value: u8) -> Written
    ensures { result ≡ written_of (write_by port_writes (bare g) port value) }
{
    match port {
        0x00FE => write_border(g, value),
        0x00FF => write_timex(g, value),
        0xBF3B => write_select(g, value),
        0xFF3B => write_plus(g, value),
        _ => no_write(g),
    }
}

// The same on a whole state.
#[tactic(auto, using(crate::proofs::Apart::ports_apart))]
pub fn write_at(s: State, port: u16, value: u8) -> Answer
    ensures { result ≡ write_by port_writes s port value }
{
    let g = registers_of(s);
    let w = write_port_apart(g, port, value);
    let p = palettes_of(s);
    answer_with(w, &p)
}

// $FE and $BF3B are write only.
pub fn read_at(s: State, port: u16) -> Result<u8, Reply>
    ensures { result ≡ read_by port_reads s port }
{
    match port {
        0x00FF => read_timex(s),
        0xFF3B => read_plus(s),
        _ => no_read(),
    }
}
