// The calls that only read a lent record, of either version.
ghost use Rattle.std.specs.Prelude.{◌≡◌};
ghost use Rattle.lent.specs.Lent.{lent_reading};
ghost use Rattle.lent.specs.Calls.{asked};

use reply::Reply;
use state::State;

// What can be asked of a state: a register or a port, by number.
#[derive(Clone, Copy)]
pub enum Query {
    Register(u8),
    Port(u16),
}

fn ask(s: State, q: Query) -> Result<u8, Reply>
    ensures { result ≡ asked q s }
{
    match q {
        Query::Register(n) => registers::read_register(s, n),
        Query::Port(n) => registers::read_port(s, n),
    }
}

// What the state in the record reads as, or the reply that refuses the record or the read.
pub fn query_record(bytes: &[u8], q: Query) -> Result<u8, Reply>
    ensures { result ≡ lent_reading (asked q) bytes.now }
{
    let read = record::read_record(bytes);
    let r = read.reply;
    if r.is_done() {
        let s = read.state;
        ask(s, q)
    } else {
        Err(r)
    }
}
