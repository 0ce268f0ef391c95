// What reading and writing a screen file are refused for. The state's own reply comes from the caller, who has judged it.
ghost use Rattle.std.specs.Prelude.{◌≡◌};
ghost use Rattle.scr_replies.specs.Judged.{bank_reply, read_judged, write_judged};

use reply::{Reply, first_of, length_reply};
use scr_forms::form_reply;
use ula_mode::Mode;

fn bank_reply(bank: usize) -> Reply
    ensures { result ≡ bank_reply bank }
{
    length_reply(bank, 16384, Reply::BankLength)
}

// The reply to reading, by the bank's length and the mode of the file's form.
pub fn read_reply(state: Reply, bank: usize, mode: Mode) -> Reply
    ensures { result ≡ read_judged state bank mode }
{
    let sized = bank_reply(bank);
    first_of(sized, first_of(state, form_reply(mode)))
}

// The reply to writing, by the lengths of the bank and of the buffer and the state's mode.
pub fn write_reply(state: Reply, bank: usize, file: usize, mode: Mode) -> Reply
    ensures { result ≡ write_judged state bank file mode }
{
    let sized = bank_reply(bank);
    let long = length_reply(file, 12353, Reply::BufferLength);
    let last = first_of(state, form_reply(mode));
    first_of(sized, first_of(long, last))
}
