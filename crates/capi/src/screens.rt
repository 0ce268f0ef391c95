// The calls on screen files. Reading one changes the record, which is of version 2; writing one takes either version.
ghost use Rattle.std.specs.Prelude.{◌≡◌};
ghost use Rattle.reply.specs.Reply.{reply_number};
ghost use Rattle.record_layout.specs.Record.{read_record};
ghost use Rattle.scr.specs.Reads.{bank_after};
ghost use Rattle.scr.specs.Writes.{written_answer, file_after};
ghost use Rattle.lent_scr.specs.Screens.{lent_read_reply, screen_read, record_after, lent_write_reply};

// Reads a screen file into `bank` and into the state in the record `bytes`; `colours` becomes the place of the file's 64 colours in it,
// 0 where it has none. Refused by 2, 16, 17, 18 or 14, in this order, it leaves record and bank and sets `colours` to 0.
#[unsafe(no_mangle)]
pub extern "C" fn narephon_read_scr(
    bytes: &mut [u8],
    bank: &mut [u8],
    file: &[u8],
    colours: &mut u32,
) -> u8
    ensures { (result ≡ reply_number (lent_read_reply bytes.old bank.old file.now))
        × (bytes.new ≡ record_after (lent_read_reply bytes.old bank.old file.now) bytes.old file.now)
        × (bank.new ≡ bank_after (lent_read_reply bytes.old bank.old file.now) bank.old file.now)
        × (colours.new ≡ (screen_read (lent_read_reply bytes.old bank.old file.now) file.now).colours) }
{
    let read = lent_scr::read_scr_record(bytes, bank, file);
    *colours = read.colours as u32;
    let r = read.reply;
    u8::from(r)
}

// Writes the screen of the state in the record `bytes` and `bank` into the front of `file`, which is 12,353 bytes; `length` becomes how
// long it is, and the bytes past it stay. Refused by 2, 3, 16, 17, 18 or 14, in this order, it leaves `file` and
// sets `length` to 0.
#[unsafe(no_mangle)]
pub extern "C" fn narephon_write_scr(
    bytes: &[u8],
    bank: &[u8],
    file: &mut [u8],
    length: &mut u32,
) -> u8
    ensures { (result ≡ reply_number (lent_write_reply bytes.now bank.now file.old))
        × (file.new ≡ file_after (lent_write_reply bytes.now bank.now file.old) (read_record bytes.now).state bank.now file.old)
        × (length.new ≡ (written_answer (lent_write_reply bytes.now bank.now file.old) (read_record bytes.now).state).length) }
{
    let written = lent_scr::write_scr_record(bytes, bank, file);
    *length = written.length as u32;
    let r = written.reply;
    u8::from(r)
}
