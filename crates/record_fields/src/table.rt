// The table: what each part is called, and its bound, in a line that a member can mend a record by. Parts are numbered as in the layout of
// version 2; those of which any byte will do are never told.
use crate::parts::{current_place, part_at};
use host::complaints::Complaints;
use record_layout::Version;
use record_places::{added, in_version, places};
use reply::Reply;
use std::{fmt, io};

// The parts before the palettes.
fn field_of(part: usize) -> &'static str {
    match part {
        3 => "register $43: bits 6-4 are 000, 011, 100 or 111",
        5 => "register $42: 1, 3, 7, 15, 31, 63, 127 or 255",
        7 => "register $4C: at most 15",
        8 => "register $68: bits 5-1 are 0",
        9 => "register $6B: bits 3-0 are 0",
        11 => "register $2F: at most 3",
        14 => "register $6E: at most 63",
        15 => "register $6F: at most 63",
        17 => "register $33: at most 191",
        19 => "register $27: at most 191",
        22 => "ULA clip's turn: at most 3",
        23 => "tilemap clip's turn: at most 3",
        24 => "held: 0 or 1",
        25 => "held byte: 0 while held is 0",
        26 => "border: at most 7",
        28 => "port $BF3B: at most 127",
        29 => "ULAplus on: 0 or 1",
        _ => "any byte",
    }
}

// The palette of a part's number.
fn palette_of(part: usize) -> &'static str {
    match part {
        32 => "first ULA palette",
        33 => "second ULA palette",
        34 => "first tilemap palette",
        _ => "second tilemap palette",
    }
}

// The colour of a palette whose high byte is at a place of version 2. The palettes stand one behind the other, 512 bytes each.
fn colour_at(place: usize) -> usize {
    let first = places::ULA_FIRST + added(Version::Version2);
    place.saturating_sub(first) % 512 / 2
}

// What stands at a place of version 2, and its bound.
#[derive(Clone, Copy)]
struct Field {
    place: usize,
}

impl fmt::Display for Field {
    fn fmt<W: fmt::Write>(&self, f: &mut fmt::Formatter<W>) -> fmt::Result {
        let part = part_at(self.place);
        if part < 32 {
            return f.write_str(field_of(part));
        }
        let palette = palette_of(part);
        let colour = colour_at(self.place);
        write!(
            f,
            "{palette}, colour {colour}: at most 511, so its high byte at most 1"
        )
    }
}

// What a record is refused for: the byte, by its place counted from 0, what it is, and what it has to be. `length` is how many bytes
// were judged.
#[derive(Clone, Copy)]
pub struct Fault {
    pub reply: Reply,
    pub place: usize,
    pub length: usize,
}

impl fmt::Display for Fault {
    fn fmt<W: fmt::Write>(&self, f: &mut fmt::Formatter<W>) -> fmt::Result {
        let place = self.place;
        write!(f, "byte {place}, ")?;
        match self.reply {
            Reply::WrongCount => f.write_str(
                "number of bytes following: 2,148 or 2,150, high byte first, and just as many follow",
            ),
            Reply::WrongVersion => {
                f.write_str("version: 1 in a record of 2,150 bytes, 2 in one of 2,152")
            }
            _ if place < in_version(Version::Version2, places::LENGTH) => {
                let v = record_places::version_of(self.length);
                let place = current_place(place, v);
                write!(f, "{}", Field { place })
            }
            _ => Ok(()),
        }
    }
}

// The complaint of a program about a record: the reply, and for a fault of the record the line that tells it.
pub fn refused<E: Print>(complaints: &Complaints<E>, fault: Fault) -> io::Result<()> {
    complaints.refused(fault.reply)?;
    match fault.reply {
        Reply::WrongCount | Reply::WrongVersion | Reply::BadField => complaints.say(fault),
        _ => Ok(()),
    }
}
