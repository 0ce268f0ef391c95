// The calls on the state in a member's seat: each finds the seat and does what the call on a lent record does with the record there.
ghost use Rattle.std.specs.Prelude.{◌≡◌};
ghost use Rattle.desk.specs.Own.{changing, asking, drawing};
ghost use Rattle.desk.specs.Desk.{desk_call};
ghost use Rattle.register_answers.specs.Answers.{answered};
ghost use Rattle.reply.specs.Answered.{value_of};

use desk_places::find;
use desk_seats::{SEAT, record_at};
use lent::{Change, Query};
use reply::Reply;
use surface::LineNumber;

// The next frame, or a write of a register or a port; or 21, 23 or the refusal of the change, and the desk as it was.
pub fn change(desk: &mut [u8], member: u16, c: Change) -> Reply
    ensures { (result ≡ (desk_call desk.old member (changing c)).outcome.reply)
        × (desk.new ≡ (desk_call desk.old member (changing c)).desk) }
{
    match find(desk, member) {
        Err(r) => r,
        Ok(i) => {
            let at = i * SEAT + 3;
            let end = i * SEAT + SEAT;
            lent::change_record(&mut desk[at..end], c)
        }
    }
}

// A register or a port read; or 21, 23 or the refusal of the question. The desk is only looked at.
pub fn query(desk: &[u8], member: u16, q: Query) -> Result<u8, Reply>
    ensures { (result ≡ answered (desk_call desk.now member (asking q)).outcome.reply (desk_call desk.now member (asking q)).outcome.value)
        × (value_of result ≡ (desk_call desk.now member (asking q)).outcome.value) }
{
    match find(desk, member) {
        Err(r) => Err(r),
        Ok(i) => lent::query_record(record_at(desk, i), q),
    }
}

// The 640 dots of a line; or 21, 23 or the refusal of the drawing, and the lent line as it was. The desk is only looked at.
pub fn draw(
    desk: &[u8],
    member: u16,
    ula: &[u8],
    tile: &[u8],
    line: LineNumber,
    dots: &mut [u16],
) -> Reply
    ensures { (result ≡ (desk_call desk.now member (drawing line ula.now tile.now dots.old)).outcome.reply)
        × (dots.new ≡ (desk_call desk.now member (drawing line ula.now tile.now dots.old)).outcome.dots) }
{
    match find(desk, member) {
        Err(r) => r,
        Ok(i) => lent::draw_record(record_at(desk, i), ula, tile, line, dots),
    }
}
