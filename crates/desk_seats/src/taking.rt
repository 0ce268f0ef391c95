// A seat that is taken.
ghost use Rattle.std.specs.Prelude.{◌≡◌, length};
ghost use Rattle.state.specs.Reset.{reset_state};
ghost use Rattle.record_layout.specs.Record.{record_of};
ghost use Rattle.desk_seats.specs.Seats.{seat_length, seat_of};

use record_parts::put_record;
use state::reset;

// The seat of a new member, with the reset state.
pub fn take_seat(seat: &mut [u8], member: u16)
    requires { length seat.old ≡ seat_length }
    ensures { seat.new ≡ seat_of member (record_of reset_state) }
{
    seat[0] = 1;
    seat[1] = (member / 256) as u8;
    seat[2] = (member % 256) as u8;
    put_record(reset(), &mut seat[3..]);
}
