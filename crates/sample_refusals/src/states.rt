// States by writes from reset. Border and paper 0 are colour 151, red 2, green 2, blue 7.
ghost use Rattle.std.specs.Prelude.{◌≡◌, ◌/◌, length};
ghost use Rattle.reply.specs.Reply.{reply_number};
ghost use Rattle.registers.specs.Registers.{write_register};
ghost use Rattle.sample_refusals.specs.States.{plain_state, entry_written, after_writes, border_state};

use state::State;

// Index 16 is what an empty screen and its border show.
pub fn plain() -> State
    ensures { result ≡ plain_state }
{
    let a = registers::write_register(state::reset(), 0x40, 16);
    let b = registers::write_register(a.state, 0x41, 0x4B);
    b.state
}

// A write by its number, high byte first: of a register below $FE, of a port from there on.
fn enter(s: State, high: u8, low: u8, value: u8) -> State
    ensures { result ≡ entry_written s high low value }
{
    let n = u16::from(high) * 256 + u16::from(low);
    if n < 0xFE {
        let a = registers::write_register(s, low, value);
        a.state
    } else {
        let b = registers::write_port(s, n, value);
        b.state
    }
}

// The plain state after writes of three bytes each, a number and a value; counted, as the definition counts them.
pub fn after(writes: &[u8]) -> State
    ensures { result ≡ after_writes writes.now (length writes.now / 3) }
{
    let mut s = plain();
    for i in 0..writes.len() / 3 {
        let o = i * 3;
        s = enter(s, writes[o], writes[o + 1], writes[o + 2]);
    }
    s
}

// A state with a border, which from 8 on is not lawful.
pub fn bordered(s: State, border: u8) -> State
    ensures { result ≡ border_state s border }
{
    let mut t = s;
    t.ports.border = border;
    t
}

// What a write of the ink mask answers.
pub fn mask_reply(mask: u8) -> u8
    ensures { result ≡ reply_number (write_register plain_state 0x42 mask).reply }
{
    let a = registers::write_register(plain(), 0x42, mask);
    u8::from(a.reply)
}
