// Seats looked for on a desk.
ghost use Rattle.std.specs.Prelude.{◌≡◌, not, ◌≤◌, length};
ghost use Rattle.desk_seats.specs.Seats.{seats, desk_length, seat_at, is_held, sits};
ghost use Rattle.desk_places.specs.Desks.{first_below};

use desk_seats::{SEATS, is_held, seat_at, sits_on};

// The place of the first of n seats that the member holds.
pub fn first_of(desk: &[u8], member: u16, n: usize) -> Option<usize>
    requires { (length desk.now ≡ desk_length) × (n ≤ seats) }
    ensures { result ≡ first_below (λ i. sits member (seat_at desk.now i)) n }
{
    (0..n).find(|i| sits_on(seat_at(desk, *i), member))
}

// The place of the first seat that is not held.
pub fn free_of(desk: &[u8]) -> Option<usize>
    requires { length desk.now ≡ desk_length }
    ensures { result ≡ first_below (λ i. not (is_held (seat_at desk.now i))) seats }
{
    (0..SEATS).find(|i| !is_held(seat_at(desk, *i)))
}
