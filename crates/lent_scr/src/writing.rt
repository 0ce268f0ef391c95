// Writing a screen file from a lent record, of either version.
ghost use Rattle.std.specs.Prelude.{◌≡◌};
ghost use Rattle.record_layout.specs.Record.{read_record};
ghost use Rattle.scr.specs.Writes.{written_answer, file_after};
ghost use Rattle.lent_scr.specs.Screens.{lent_write_reply};

use scr::{Written, write_judged};
use scr_replies::write_reply;
use ula_mode::mode_of;

// The screen of the state in the record written into the front of 12,353 lent bytes, or refused by 2, 3, 16, 17, 18 or 14 and the
// bytes as they were.
pub fn write_scr_record(bytes: &[u8], bank: &[u8], file: &mut [u8]) -> Written
    ensures { (result ≡ written_answer (lent_write_reply bytes.now bank.now file.old) (read_record bytes.now).state)
        × (file.new ≡ file_after (lent_write_reply bytes.now bank.now file.old) (read_record bytes.now).state bank.now file.old) }
{
    let read = record::read_record(bytes);
    let stored = read.reply;
    let s = read.state;
    let mode = mode_of(s.ula, s.ports);
    let r = write_reply(stored, bank.len(), file.len(), mode);
    write_judged(r, s, bank, file)
}
