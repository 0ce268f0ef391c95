// Reads by register number. They move nothing.
ghost use Rattle.std.specs.Prelude.{◌≡◌};
ghost use Rattle.registers.specs.Registers.{read_register};

use register_tables::read_numbered;
use reply::Reply;
use state::{State, lawful};

// The byte that a register reads as, or the reply that refuses it.
#[tactic(auto, unfolding(crate::specs::Registers::read_register))]
pub fn read_register(s: State, number: u8) -> Result<u8, Reply>
    ensures { result ≡ read_register s number }
{
    if lawful(s) {
        read_numbered(s, number)
    } else {
        Err(Reply::NotLawful)
    }
}
