// The calls that change a lent record, of version 2. To all but reset, which reads nothing, one of version 1 is 17.
ghost use Rattle.std.specs.Prelude.{◌≡◌};
ghost use Rattle.reply.specs.Reply.{reply_number};
ghost use Rattle.frame.specs.Frame.{next_frame};
ghost use Rattle.registers.specs.Registers.{write_register, write_port};
ghost use Rattle.lent.specs.Lent.{lent_answer, lent_after, reset_reply, reset_in};

use lent::Change;

// Puts the record of the reset state into `bytes`, whatever they hold; there only have to be 2,152 of them.
// Any other length is 3 and leaves them.
#[unsafe(no_mangle)]
pub extern "C" fn narephon_reset(bytes: &mut [u8]) -> u8
    ensures { (result ≡ reply_number (reset_reply bytes.old)) × (bytes.new ≡ reset_in bytes.old) }
{
    u8::from(lent::reset_record(bytes))
}

// Moves the state in the record `bytes` one frame on, from 255 to 0.
// Bytes that are no record are 16, 17 or 18 and stay as they were.
#[unsafe(no_mangle)]
pub extern "C" fn narephon_next_frame(bytes: &mut [u8]) -> u8
    ensures { (result ≡ reply_number (lent_answer next_frame bytes.old).reply)
        × (bytes.new ≡ lent_after bytes.old (lent_answer next_frame bytes.old)) }
{
    u8::from(lent::change_record(bytes, Change::NextFrame))
}

// Writes `value` to the register of this number, in the record `bytes`.
// Refused by 16, 17, 18, 9 or 10, it leaves the bytes, and with them a held half.
#[unsafe(no_mangle)]
pub extern "C" fn narephon_write_register(bytes: &mut [u8], register: u8, value: u8) -> u8
    ensures { (result ≡ reply_number (lent_answer (λ s. write_register s register value) bytes.old).reply)
        × (bytes.new ≡ lent_after bytes.old (lent_answer (λ s. write_register s register value) bytes.old)) }
{
    u8::from(lent::change_record(bytes, Change::Register(register, value)))
}

// Writes `value` to the port of this whole number ($00FE, $00FF, $BF3B or $FF3B), in the record `bytes`.
// Refused by 16, 17, 18, 9 or 10, it leaves the bytes.
#[unsafe(no_mangle)]
pub extern "C" fn narephon_write_port(bytes: &mut [u8], port: u16, value: u8) -> u8
    ensures { (result ≡ reply_number (lent_answer (λ s. write_port s port value) bytes.old).reply)
        × (bytes.new ≡ lent_after bytes.old (lent_answer (λ s. write_port s port value) bytes.old)) }
{
    u8::from(lent::change_record(bytes, Change::Port(port, value)))
}
