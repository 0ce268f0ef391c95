// Reading a screen file into a lent record, of version 2: the new state's record goes into the same bytes.
ghost use Rattle.std.specs.Prelude.{◌≡◌, true, cond, ◌-◌, ◌≤◌, length};
ghost use Rattle.record_layout.specs.Version.{current};
ghost use Rattle.record_layout.specs.Record.{record_length, record_of};
ghost use Rattle.scr_forms.specs.Forms.{form_of, has_form, filled};
ghost use Rattle.scr_forms.specs.Files.{colours_size, shape_of};
ghost use Rattle.scr.specs.Reads.{state_read, bank_after};
ghost use Rattle.lent_scr.specs.Screens.{lent_read_reply, screen_read, record_after};

use record_parts::put_record;
use reply::Reply;
use scr::state_read;
use scr_forms::{Shape, colours_size, shape_of};
use scr_parts::fill;
use scr_replies::read_reply;
use state::State;

// What reading answers: the reply, and the place of the colours in the file, 0 where there are none.
#[derive(Clone, Copy)]
pub struct ScreenRead {
    pub reply: Reply,
    pub colours: usize,
}

// Where the colours start in a file of this length, 0 where it has none.
fn place(colours: bool, length: usize) -> usize
    requires { colours_size colours ≤ length }
    ensures { result ≡ cond colours (length - colours_size colours) 0 }
{
    let size = colours_size(colours);
    if colours { length - size } else { 0 }
}

// Fills the bank and stores the state that shows a file whose form is found.
fn store_screen(bytes: &mut [u8], bank: &mut [u8], s: State, found: Shape, file: &[u8])
    requires { (length bytes.old ≡ record_length current) × (length bank.old ≡ 16384) × (found ≡ shape_of file.now) × (has_form found.mode ≡ true) }
    ensures { (bytes.new ≡ record_of (state_read s file.now))
        × (bank.new ≡ filled (form_of found.mode).parts bank.old file.now) }
{
    let mode = found.mode;
    fill(bank, mode, file);
    let t = state_read(s, found, file);
    put_record(t, bytes);
}

// A screen file read into the bank and the state in the record, or refused by 2, 16, 17, 18 or 14 and both as they were.
pub fn read_scr_record(bytes: &mut [u8], bank: &mut [u8], file: &[u8]) -> ScreenRead
    ensures { (result ≡ screen_read (lent_read_reply bytes.old bank.old file.now) file.now)
        × (bytes.new ≡ record_after (lent_read_reply bytes.old bank.old file.now) bytes.old file.now)
        × (bank.new ≡ bank_after (lent_read_reply bytes.old bank.old file.now) bank.old file.now) }
{
    let found = shape_of(file);
    let mode = found.mode;
    let read = record::read_current(bytes);
    let stored = read.reply;
    let r = read_reply(stored, bank.len(), mode);
    if r.is_done() {
        let s = read.state;
        store_screen(bytes, bank, s, found, file);
        let colours = place(found.colours, file.len());
        ScreenRead { reply: r, colours }
    } else {
        ScreenRead {
            reply: r,
            colours: 0,
        }
    }
}
