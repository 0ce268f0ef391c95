// One seat of a desk.
ghost use Rattle.std.specs.Prelude.{◌≡◌, ◌<◌, length};
ghost use Rattle.desk_seats.specs.Seats.{seats, seat_length, desk_length, seat_at, is_held, number_of, record_of_seat, is_free, is_seat, sits};

use record_layout::Version;

pub const SEATS: usize = 16;

pub const SEAT: usize = 2155;

pub fn seat_at(desk: &[u8], i: usize) -> &[u8]
    requires { (length desk.now ≡ desk_length) × (i < seats) }
    ensures { (result.now ≡ seat_at desk.now i) × (length result.now ≡ seat_length) }
{
    let at = i * SEAT;
    let end = at + SEAT;
    &desk[at..end]
}

// The record in seat i.
pub fn record_at(desk: &[u8], i: usize) -> &[u8]
    requires { (length desk.now ≡ desk_length) × (i < seats) }
    ensures { result.now ≡ record_of_seat (seat_at desk.now i) }
{
    let seat = seat_at(desk, i);
    &seat[3..]
}

pub fn number_of(seat: &[u8]) -> u16
    requires { length seat.now ≡ seat_length }
    ensures { result ≡ number_of seat.now }
{
    u16::from(seat[1]) * 256 + u16::from(seat[2])
}

pub fn is_held(seat: &[u8]) -> bool
    requires { length seat.now ≡ seat_length }
    ensures { result ≡ is_held seat.now }
{
    seat[0] == 1
}

pub fn sits_on(seat: &[u8], member: u16) -> bool
    requires { length seat.now ≡ seat_length }
    ensures { result ≡ sits member seat.now }
{
    is_held(seat) & (number_of(seat) == member)
}

// Every byte is looked at, without an early end, so that many are tested at once.
fn is_free(seat: &[u8]) -> bool
    requires { length seat.now ≡ seat_length }
    ensures { result ≡ is_free seat.now }
{
    let mut ok = true;
    // As many as a number says, so that an edit can leave one out.
    for byte in &seat[..SEAT] {
        ok = (*byte == 0) & ok;
    }
    ok
}

pub fn is_seat(seat: &[u8]) -> bool
    requires { length seat.now ≡ seat_length }
    ensures { result ≡ is_seat seat.now }
{
    if is_held(seat) {
        record::reply_as(&seat[3..SEAT], Version::Version2).is_done()
    } else {
        is_free(seat)
    }
}
