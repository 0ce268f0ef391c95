// One seat of a desk: whether it is held, by whom, and with what; and one taken.
#![tactic(auto)]

mod seats;
mod taking;

pub use seats::{SEAT, SEATS, is_held, is_seat, number_of, record_at, seat_at, sits_on};
pub use taking::take_seat;
