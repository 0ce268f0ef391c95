// Where the calls of a member go, on a desk that is judged first.
ghost use Rattle.std.specs.Prelude.{◌≡◌, length};
ghost use Rattle.desk_seats.specs.Seats.{desk_length};
ghost use Rattle.desk_places.specs.Places.{place_in, free_for, free_in};

use crate::desks::well_formed;
use crate::search::{first_of, free_of};
use desk_seats::SEATS;
use reply::Reply;

// The place of the member's seat, or 21 or 23. Here and below a seat that is found has a name, so that an edit can give another: by `ok_or` no
// edit could without one call more.
pub fn find(desk: &[u8], member: u16) -> Result<usize, Reply>
    ensures { result ≡ place_in desk.now member }
{
    if !well_formed(desk) {
        return Err(Reply::BadDesk);
    }
    let Some(i) = first_of(desk, member, SEATS) else {
        return Err(Reply::NotOpen);
    };
    Ok(i)
}

// The place of the first free seat for a member that has none, or 22 or 24.
fn free_for(desk: &[u8], member: u16) -> Result<usize, Reply>
    requires { length desk.now ≡ desk_length }
    ensures { result ≡ free_for desk.now member }
{
    if first_of(desk, member, SEATS).is_some() {
        return Err(Reply::AlreadyOpen);
    }
    let Some(free) = free_of(desk) else {
        return Err(Reply::DeskFull);
    };
    Ok(free)
}

// The same on any desk: 21 first.
pub fn find_free(desk: &[u8], member: u16) -> Result<usize, Reply>
    ensures { result ≡ free_in desk.now member }
{
    if well_formed(desk) {
        free_for(desk, member)
    } else {
        Err(Reply::BadDesk)
    }
}
