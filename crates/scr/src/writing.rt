// Writing a screen file.
ghost use Rattle.std.specs.Prelude.{◌≡◌, true, cond, [], ◌∷◌, ◌++◌, ◌+◌, ◌≤◌, length};
ghost use Rattle.lists.specs.Placed.{placed};
ghost use Rattle.reply.specs.Reply.{is_done};
ghost use Rattle.scr_forms.specs.Forms.{form_of};
ghost use Rattle.scr_forms.specs.Files.{port_size, colours_size, length_of};
ghost use Rattle.scr_replies.specs.Judged.{file_length};
ghost use Rattle.scr.specs.Writes.{mode_in, write_reply, file_of, written_answer, file_after};

use lists::put;
use reply::Reply;
use scr_forms::{colours_size, row_of};
use scr_parts::put_parts;
use scr_replies::write_reply;
use state::{State, lawful_reply};
use ula_mode::{Mode, mode_of};

// What writing answers: the reply, and the file's length, 0 where it is refused.
#[derive(Clone, Copy)]
pub struct Written {
    pub reply: Reply,
    pub length: usize,
}

// Puts the byte of port $FF and the colours, where there are any, from a place on, and tells the place after them.
fn put_rest(file: &mut [u8], at: usize, mode: Mode, timex: u8, on: bool, plus: [u8; 64]) -> usize
    requires { at + port_size mode + colours_size on ≤ length file.old }
    ensures { (result ≡ at + port_size mode + colours_size on)
        × (file.new ≡ placed file.old at (cond (form_of mode).port (timex ∷ []) [] ++ cond on plus [])) }
{
    let row = row_of(mode);
    let port = row.port;
    let colours = colours_size(on);
    let byte = [timex];
    put(file, at, &byte[0..port]);
    let next = at + port;
    put(file, next, &plus[0..colours]);
    next + colours
}

// Puts a state's screen into the front of a buffer, and tells its length.
fn put_screen(s: State, bank: &[u8], file: &mut [u8]) -> usize
    requires { (length bank.now ≡ 16384) × (length file.old ≡ file_length) }
    ensures { (result ≡ length_of (mode_in s) s.ports.plus) × (file.new ≡ placed file.old 0 (file_of s bank.now)) }
{
    let mode = mode_of(s.ula, s.ports);
    let at = put_parts(file, mode, bank);
    let plus = s.plus;
    put_rest(file, at, mode, s.ports.timex, s.ports.plus, plus)
}

// What the reply `r` to writing gives: the screen in the buffer and its length, or the buffer as it was. The caller has judged both lengths.
pub fn write_judged(r: Reply, s: State, bank: &[u8], file: &mut [u8]) -> Written
    requires { is_done r ≡ true → (length bank.now ≡ 16384) × (length file.old ≡ file_length) }
    ensures { (result ≡ written_answer r s) × (file.new ≡ file_after r s bank.now file.old) }
{
    if r.is_done() {
        let length = put_screen(s, bank, file);
        Written { reply: r, length }
    } else {
        Written {
            reply: r,
            length: 0,
        }
    }
}

// A state's screen written into the front of 12,353 lent bytes, or refused by 2, 3, 4 or 14 and the bytes as they were.
pub fn write_scr(s: State, bank: &[u8], file: &mut [u8]) -> Written
    ensures { (result ≡ written_answer (write_reply s bank.now file.old) s)
        × (file.new ≡ file_after (write_reply s bank.now file.old) s bank.now file.old) }
{
    let mode = mode_of(s.ula, s.ports);
    let r = write_reply(lawful_reply(s), bank.len(), file.len(), mode);
    write_judged(r, s, bank, file)
}
