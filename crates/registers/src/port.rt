// Writes and reads by port.
ghost use Rattle.std.specs.Prelude.{◌≡◌};
ghost use Rattle.registers.specs.Registers.{write_port, read_port};

use reply::Reply;
use state::{Answer, State, lawful};

// The state after a write to a port, or the reply that refuses it and the same state.
pub fn write_port(s: State, port: u16, value: u8) -> Answer
    ensures { result ≡ write_port s port value }
{
    if lawful(s) {
        register_ports::write_at(s, port, value)
    } else {
        Answer {
            reply: Reply::NotLawful,
            state: s,
        }
    }
}

// The byte that a port reads as, or the reply that refuses it.
#[tactic(auto, unfolding(crate::specs::Registers::read_port))]
pub fn read_port(s: State, port: u16) -> Result<u8, Reply>
    ensures { result ≡ read_port s port }
{
    if lawful(s) {
        register_ports::read_at(s, port)
    } else {
        Err(Reply::NotLawful)
    }
}
