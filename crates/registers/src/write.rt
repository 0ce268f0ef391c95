// Writes by register number.
ghost use Rattle.std.specs.Prelude.{◌≡◌};
ghost use Rattle.registers.specs.Registers.{write_register};

use register_tables::write_numbered;
use reply::Reply;
use state::{Answer, State, lawful};

// The state after a write to a register, or the reply that refuses it and the same state.
pub fn write_register(s: State, number: u8, value: u8) -> Answer
    ensures { result ≡ write_register s number value }
{
    if lawful(s) {
        write_numbered(s, number, value)
    } else {
        Answer {
            reply: Reply::NotLawful,
            state: s,
        }
    }
}
