// Each field of a state in the record's order, the first and the last of the 64 registers, and two colours of each palette.
use host::files::bytes_of;
use host::records::RECORD_FILE;
use host::report::rows;
use state::State;
use std::io;
use std::rt::Files;

fn print_before_clips(rt: &impl Print, s: State) -> io::Result<()> {
    rows(
        rt,
        &[
            ("$14", s.ula.transparent),
            ("$15", s.ula.layers),
            ("$08", s.ula.peripheral),
            ("$43", s.palette.control),
            ("$40", s.palette.index),
            ("$42", s.palette.mask),
            ("$4A", s.ula.fallback),
            ("$4C", s.tiles.transparent),
            ("$68", s.ula.control),
            ("$6B", s.tiles.control),
            ("$6C", s.tiles.attribute),
            ("$2F", s.tiles.xhigh),
            ("$30", s.tiles.xlow),
            ("$31", s.tiles.y),
            ("$6E", s.tiles.map),
            ("$6F", s.tiles.definitions),
            ("$32", s.ula.loresx),
            ("$33", s.ula.loresy),
            ("$26", s.ula.x),
            ("$27", s.ula.y),
        ],
    )
}

fn print_clip(rt: &impl Print, label: &str, clip: [u8; 4]) -> io::Result<()> {
    for edge in clip {
        println!(rt; "{label} {edge}")?;
    }
    Ok(())
}

fn print_after_clips(rt: &impl Print, s: State) -> io::Result<()> {
    rows(
        rt,
        &[
            ("ULA turn", s.turns.ula),
            ("tilemap turn", s.turns.tiles),
            ("held", u8::from(s.palette.held)),
            ("held byte", s.palette.half),
            ("border", s.ports.border),
            ("$FF", s.ports.timex),
            ("$BF3B", s.ports.select),
            ("ULAplus on", u8::from(s.ports.plus)),
            ("frame", s.frame),
            ("register 1", s.plus[1]),
            ("register 63", s.plus[63]),
        ],
    )
}

fn print_colours(rt: &impl Print, label: &str, palette: &[u16; 256]) -> io::Result<()> {
    println!(rt; "{label} 2 {}\n{label} 255 {}", palette[2], palette[255])
}

pub fn print_fields(rt: &(impl Print + Files), name: &str) -> io::Result<()> {
    let mut bytes = [0u8; RECORD_FILE];
    let n = bytes_of(rt, name.as_bytes(), &mut bytes)?;
    let s = record::read_record(&bytes[..n]).state;
    print_before_clips(rt, s)?;
    print_clip(rt, "ULA clip", s.ulaclip)?;
    print_clip(rt, "tilemap clip", s.tileclip)?;
    print_after_clips(rt, s)?;
    print_colours(rt, "first ULA palette", &s.ulafirst)?;
    print_colours(rt, "second ULA palette", &s.ulasecond)?;
    print_colours(rt, "first tilemap palette", &s.tilefirst)?;
    print_colours(rt, "second tilemap palette", &s.tilesecond)
}
