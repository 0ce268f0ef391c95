// The table of forms.
ghost use Rattle.std.specs.Prelude.{◌≡◌, ◌≤◌};
ghost use Rattle.scr_forms.specs.Forms.{form_reply};
ghost use Rattle.scr_forms.specs.Rows.{row_of};

use reply::Reply;
use ula_mode::Mode;

// A form in numbers: the low three bits of port $FF, how many bytes of the bank it has from $0000 on and from $2000 on, and how
// many of the port follow them. A mode without a form has none.
#[derive(Clone, Copy)]
pub struct Row {
    pub value: u8,
    pub first: usize,
    pub second: usize,
    pub port: usize,
}

fn form(value: u8, first: usize, second: usize, port: usize) -> Row
    ensures { result ≡ record { value = value; first = first; second = second; port = port } }
{
    Row {
        value,
        first,
        second,
        port,
    }
}

pub fn row_of(mode: Mode) -> Row
    ensures { (result ≡ row_of mode) × (result.first ≤ 6912) × (result.second ≤ 6144) × (result.port ≤ 1) }
{
    match mode {
        Mode::Lores => form(0, 0, 0, 0),
        Mode::Standard => form(0, 6912, 0, 0),
        Mode::Second => form(0, 0, 0, 0),
        Mode::HighColour => form(2, 6144, 6144, 0),
        Mode::HighResolution => form(6, 6144, 6144, 1),
        Mode::Missing => form(0, 0, 0, 0),
    }
}

// Done where the mode has a form. Each form has bytes from $0000 on.
pub fn form_reply(mode: Mode) -> Reply
    ensures { result ≡ form_reply mode }
{
    let row = row_of(mode);
    if row.first == 0 {
        Reply::NoForm
    } else {
        Reply::Done
    }
}
