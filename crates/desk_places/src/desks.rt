// A whole desk: started, and judged, as every other call does before all else.
ghost use Rattle.std.specs.Prelude.{◌≡◌, not, ◌&&◌, ◌<◌, length};
ghost use Rattle.desk_seats.specs.Seats.{seats, desk_length, seat_at, is_seat};
ghost use Rattle.desk_places.specs.Desks.{is_again, well_formed, start_reply, started};

use crate::search::first_of;
use desk_seats::{SEAT, SEATS, is_held, is_seat, number_of, seat_at};
use lists::zero;
use reply::Reply;

fn is_again(desk: &[u8], i: usize) -> bool
    requires { (length desk.now ≡ desk_length) × (i < seats) }
    ensures { result ≡ is_again desk.now i }
{
    let seat = seat_at(desk, i);
    is_held(seat) & first_of(desk, number_of(seat), i).is_some()
}

fn is_good(desk: &[u8], i: usize) -> bool
    requires { (length desk.now ≡ desk_length) × (i < seats) }
    ensures { result ≡ (is_seat (seat_at desk.now i) && not (is_again desk.now i)) }
{
    let seat = is_seat(seat_at(desk, i));
    let again = is_again(desk, i);
    seat & !again
}

pub fn well_formed(desk: &[u8]) -> bool
    ensures { result ≡ well_formed desk.now }
{
    if desk.len() != SEATS * SEAT {
        return false;
    }
    let mut ok = true;
    for i in 0..SEATS {
        ok = is_good(desk, i) & ok;
    }
    ok
}

// An empty desk, whatever the bytes were, or reply 3 where they are not as many as a desk has.
pub fn start(desk: &mut [u8]) -> Reply
    ensures { (result ≡ start_reply desk.old) × (desk.new ≡ started desk.old) }
{
    if desk.len() == SEATS * SEAT {
        zero(desk);
        Reply::Done
    } else {
        Reply::BufferLength
    }
}
