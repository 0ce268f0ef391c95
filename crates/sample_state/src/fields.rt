// The fields of a state in the record's order.
use host::report::rows;
use state::{State, Tiles, Ula};
use std::io;

fn print_ula(rt: &impl Print, u: Ula) -> io::Result<()> {
    rows(
        rt,
        &[
            ("$14", u.transparent),
            ("$15", u.layers),
            ("$08", u.peripheral),
            ("$4A", u.fallback),
            ("$68", u.control),
            ("$32", u.loresx),
            ("$33", u.loresy),
            ("$26", u.x),
            ("$27", u.y),
        ],
    )
}

fn print_tiles(rt: &impl Print, t: Tiles) -> io::Result<()> {
    rows(
        rt,
        &[
            ("$4C", t.transparent),
            ("$6B", t.control),
            ("$6C", t.attribute),
            ("$2F", t.xhigh),
            ("$30", t.xlow),
            ("$31", t.y),
            ("$6E", t.map),
            ("$6F", t.definitions),
        ],
    )
}

fn print_rest(rt: &impl Print, s: State) -> io::Result<()> {
    rows(
        rt,
        &[
            ("$43", s.palette.control),
            ("$40", s.palette.index),
            ("$42", s.palette.mask),
            ("held", u8::from(s.palette.held)),
            ("held byte", s.palette.half),
            ("ULA turn", s.turns.ula),
            ("tilemap turn", s.turns.tiles),
            ("border", s.ports.border),
            ("$FF", s.ports.timex),
            ("$BF3B", s.ports.select),
            ("ULAplus on", u8::from(s.ports.plus)),
            ("frame", s.frame),
        ],
    )
}

fn print_clip(rt: &impl Print, label: &str, clip: [u8; 4]) -> io::Result<()> {
    for edge in clip {
        println!(rt; "{label} {edge}")?;
    }
    Ok(())
}

// The sum of an array: 0 where every entry is.
fn print_sum<T: Copy + Into<u64>>(rt: &impl Print, label: &str, entries: &[T]) -> io::Result<()> {
    let sum = entries
        .iter()
        .fold(0u64, |sum, entry| sum.wrapping_add((*entry).into()));
    println!(rt; "sum of the {label} {sum}")
}

pub fn print_fields(rt: &impl Print, s: State) -> io::Result<()> {
    print_ula(rt, s.ula)?;
    print_tiles(rt, s.tiles)?;
    print_rest(rt, s)?;
    print_clip(rt, "ULA clip", s.ulaclip)?;
    print_clip(rt, "tilemap clip", s.tileclip)?;
    print_sum(rt, "ULAplus registers", &s.plus)?;
    print_sum(rt, "first ULA palette", &s.ulafirst)?;
    print_sum(rt, "second ULA palette", &s.ulasecond)?;
    print_sum(rt, "first tilemap palette", &s.tilefirst)?;
    print_sum(rt, "second tilemap palette", &s.tilesecond)
}
