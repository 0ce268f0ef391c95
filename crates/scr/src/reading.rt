// Reading a screen file: two calls over one judgement, `read_scr` and `colours`, since no covered function can hold a part that is lent
// back beside a state in one answer.
ghost use Rattle.std.specs.Prelude.{◌≡◌, true, ◌+◌, ◌-◌, ◌≤◌, length, drop};
ghost use Rattle.scr_forms.specs.Forms.{has_form};
ghost use Rattle.scr_forms.specs.Files.{shape_of, colours_size};
ghost use Rattle.scr.specs.Reads.{read_reply, state_read, read_answer, bank_after, colours_after, colours_place};

use reply::Reply;
use scr_forms::{Shape, colours_size, port_in, shape_of};
use scr_parts::fill;
use scr_replies::read_reply;
use scr_state::with_screen;
use state::{Answer, State, lawful_reply};

// The file's last 64 bytes, or an empty part at its end.
fn part<'a>(on: bool, file: &'a [u8]) -> &'a [u8]
    requires { colours_size on ≤ length file.now }
    ensures { (result.now ≡ drop (length file.now - colours_size on) file.now)
        × (result.ref_ptr ≡ (file.entry.ref_ptr.0, length file.now - colours_size on + file.entry.ref_ptr.1)) }
{
    let n = file.len();
    let at = n - colours_size(on);
    &file[at..n]
}

// The state that shows a file. The caller has found its form.
pub fn state_read(s: State, found: Shape, file: &[u8]) -> State
    requires { (found ≡ shape_of file.now) × (has_form found.mode ≡ true) }
    ensures { result ≡ state_read s file.now }
{
    let mode = found.mode;
    let port = port_in(mode, file);
    with_screen(s, port, found.colours, part(found.colours, file))
}

// A screen file read into the bank and the state, or refused by 2, 4 or 14 and both as they were.
pub fn read_scr(s: State, bank: &mut [u8], file: &[u8]) -> Answer
    ensures { (result ≡ read_answer s bank.old file.now)
        × (bank.new ≡ bank_after (read_reply s bank.old file.now) bank.old file.now) }
{
    let found = shape_of(file);
    let mode = found.mode;
    let r = read_reply(lawful_reply(s), bank.len(), mode);
    if r.is_done() {
        fill(bank, mode, file);
        let state = state_read(s, found, file);
        Answer {
            reply: Reply::Done,
            state,
        }
    } else {
        Answer { reply: r, state: s }
    }
}

// The colours of a screen file: its own last 64 bytes, lent back, or an empty part where it has none or reading it is refused.
pub fn colours<'a>(s: State, bank: &[u8], file: &'a [u8]) -> &'a [u8]
    ensures { (result.now ≡ colours_after (read_reply s bank.now file.now) file.now)
        × (result.ref_ptr ≡ (file.entry.ref_ptr.0, colours_place (read_reply s bank.now file.now) file.now + file.entry.ref_ptr.1)) }
{
    let found = shape_of(file);
    let mode = found.mode;
    let done = read_reply(lawful_reply(s), bank.len(), mode).is_done();
    part(done & found.colours, file)
}
