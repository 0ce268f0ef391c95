// The calls on a desk of many members, each by its number. All but start, which is refused by 3 alone, are refused by 21 before all else,
// then by 22 and 24 or by 23, then as the call on a record is. A refusal leaves the desk.
ghost use Rattle.std.specs.Prelude.{◌≡◌};
ghost use Rattle.reply.specs.Reply.{reply_number};
ghost use Rattle.lent.specs.declared.changes.Change.TheVariants.{NextFrame, Register, Port};
ghost use Rattle.lent.specs.declared.queries.Query.TheVariants as asked;
ghost use Rattle.desk.specs.Own.{opening, closing, changing, asking, drawing};
ghost use Rattle.desk_places.specs.Desks.{start_reply, started};
ghost use Rattle.desk.specs.Desk.{desk_call};
ghost use Rattle.surface.specs.Lines.{numbered};

use lent::{Change, Query};
use reply::reply_of;
use surface::LineNumber;

// Makes an empty desk of `desk`, whatever the bytes hold; there only have to be 34,480 of them. Any other length is 3 and leaves them.
#[unsafe(no_mangle)]
pub extern "C" fn narephon_desk_start(desk: &mut [u8]) -> u8
    ensures { (result ≡ reply_number (start_reply desk.old)) × (desk.new ≡ started desk.old) }
{
    u8::from(desk::start(desk))
}

// Gives the member the first free seat, with the reset state. Refused by 21, 22 or 24.
#[unsafe(no_mangle)]
pub extern "C" fn narephon_desk_open(desk: &mut [u8], member: u16) -> u8
    ensures { (result ≡ reply_number (desk_call desk.old member opening).outcome.reply)
        × (desk.new ≡ (desk_call desk.old member opening).desk) }
{
    u8::from(desk::open(desk, member))
}

// Makes every byte of the member's seat 0. Refused by 21 or 23.
#[unsafe(no_mangle)]
pub extern "C" fn narephon_desk_close(desk: &mut [u8], member: u16) -> u8
    ensures { (result ≡ reply_number (desk_call desk.old member closing).outcome.reply)
        × (desk.new ≡ (desk_call desk.old member closing).desk) }
{
    u8::from(desk::close(desk, member))
}

// Moves the member's state one frame on. Refused by 21 or 23.
#[unsafe(no_mangle)]
pub extern "C" fn narephon_desk_next_frame(desk: &mut [u8], member: u16) -> u8
    ensures { (result ≡ reply_number (desk_call desk.old member (changing NextFrame)).outcome.reply)
        × (desk.new ≡ (desk_call desk.old member (changing NextFrame)).desk) }
{
    u8::from(desk::change(desk, member, Change::NextFrame))
}

// Writes `value` to the register of this number, in the member's state. Refused by 21, 23, 9 or 10.
#[unsafe(no_mangle)]
pub extern "C" fn narephon_desk_write_register(
    desk: &mut [u8],
    member: u16,
    register: u8,
    value: u8,
) -> u8
    ensures { (result ≡ reply_number (desk_call desk.old member (changing (Register register value))).outcome.reply)
        × (desk.new ≡ (desk_call desk.old member (changing (Register register value))).desk) }
{
    u8::from(desk::change(desk, member, Change::Register(register, value)))
}

// Writes `value` to the port of this whole number, in the member's state. Refused by 21, 23, 9 or 10.
#[unsafe(no_mangle)]
pub extern "C" fn narephon_desk_write_port(desk: &mut [u8], member: u16, port: u16, value: u8) -> u8
    ensures { (result ≡ reply_number (desk_call desk.old member (changing (Port port value))).outcome.reply)
        × (desk.new ≡ (desk_call desk.old member (changing (Port port value))).desk) }
{
    u8::from(desk::change(desk, member, Change::Port(port, value)))
}

// Reads the register of this number in the member's state into `value`. Refused by 21, 23 or 9, it sets `value` to 0.
#[unsafe(no_mangle)]
pub extern "C" fn narephon_desk_read_register(
    desk: &[u8],
    member: u16,
    register: u8,
    value: &mut u8,
) -> u8
    ensures { (result ≡ reply_number (desk_call desk.now member (asking (asked.Register register))).outcome.reply)
        × (value.new ≡ (desk_call desk.now member (asking (asked.Register register))).outcome.value) }
{
    let got = desk::query(desk, member, Query::Register(register));
    *value = got.unwrap_or(0);
    u8::from(reply_of(got))
}

// Reads the port of this whole number in the member's state into `value`. Refused by 21, 23 or 9, it sets `value` to 0.
#[unsafe(no_mangle)]
pub extern "C" fn narephon_desk_read_port(desk: &[u8], member: u16, port: u16, value: &mut u8) -> u8
    ensures { (result ≡ reply_number (desk_call desk.now member (asking (asked.Port port))).outcome.reply)
        × (value.new ≡ (desk_call desk.now member (asking (asked.Port port))).outcome.value) }
{
    let got = desk::query(desk, member, Query::Port(port));
    *value = got.unwrap_or(0);
    u8::from(reply_of(got))
}

// Draws a line of the member's state as `narephon_draw` does. Refused by 21, 23, 1, 2, 3, 6, 7, 5 or 8, in this order, it leaves `dots`.
#[unsafe(no_mangle)]
pub extern "C" fn narephon_desk_draw(
    desk: &[u8],
    member: u16,
    ula: &[u8],
    tile: &[u8],
    line: u32,
    dots: &mut [u16],
) -> u8
    ensures { (result ≡ reply_number (desk_call desk.now member (drawing (numbered line) ula.now tile.now dots.old)).outcome.reply)
        × (dots.new ≡ (desk_call desk.now member (drawing (numbered line) ula.now tile.now dots.old)).outcome.dots) }
{
    let r = desk::draw(desk, member, ula, tile, LineNumber(line as usize), dots);
    u8::from(r)
}
