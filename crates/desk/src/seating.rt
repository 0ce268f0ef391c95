// Seats taken and given up.
ghost use Rattle.std.specs.Prelude.{◌≡◌};
ghost use Rattle.desk.specs.Own.{opening, closing};
ghost use Rattle.desk.specs.Desk.{desk_call};

use desk_places::{find, find_free};
use desk_seats::{SEAT, take_seat};
use lists::zero;
use reply::Reply;

// The first free seat for the member, with the reset state; or 21, 22 or 24, and the desk as it was.
pub fn open(desk: &mut [u8], member: u16) -> Reply
    ensures { (result ≡ (desk_call desk.old member opening).outcome.reply)
        × (desk.new ≡ (desk_call desk.old member opening).desk) }
{
    match find_free(desk, member) {
        Err(r) => r,
        Ok(i) => {
            let at = i * SEAT;
            let end = at + SEAT;
            take_seat(&mut desk[at..end], member);
            Reply::Done
        }
    }
}

// The member's seat made all 0; or 21 or 23, and the desk as it was.
pub fn close(desk: &mut [u8], member: u16) -> Reply
    ensures { (result ≡ (desk_call desk.old member closing).outcome.reply)
        × (desk.new ≡ (desk_call desk.old member closing).desk) }
{
    match find(desk, member) {
        Err(r) => r,
        Ok(i) => {
            let at = i * SEAT;
            let end = at + SEAT;
            zero(&mut desk[at..end]);
            Reply::Done
        }
    }
}
