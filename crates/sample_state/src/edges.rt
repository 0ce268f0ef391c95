// The reset state with one field changed, judged at each bound's edge and one past it.
use state::State;
use std::{fmt, io};

fn judge_each<T: Copy + fmt::Display, F: Fn(&mut State, T)>(
    rt: &impl Print,
    label: &str,
    values: &[T],
    change: F,
) -> io::Result<()>
    requires { F.IsAlwaysCallable change }
{
    for value in values {
        let value = *value;
        let mut s = state::reset();
        change(&mut s, value);
        let judged = if state::lawful(s) {
            "lawful"
        } else {
            "not lawful"
        };
        println!(rt; "{label} {value} {judged}")?;
    }
    Ok(())
}

// A field of one byte.
fn byte<F: Fn(&mut State, u8)>(
    rt: &impl Print,
    label: &str,
    values: &[u8],
    change: F,
) -> io::Result<()>
    requires { F.IsAlwaysCallable change }
{
    judge_each(rt, label, values, change)
}

// A colour of one of the four palettes.
fn colour<F: Fn(&mut State, u16)>(rt: &impl Print, label: &str, change: F) -> io::Result<()>
    requires { F.IsAlwaysCallable change }
{
    judge_each(rt, label, &[511, 512], change)
}

fn print_ula_edges(rt: &impl Print) -> io::Result<()> {
    byte(rt, "$33", &[191, 192], |s, v| s.ula.loresy = v)?;
    byte(rt, "$26", &[255], |s, v| s.ula.x = v)?;
    byte(rt, "$27", &[191, 192], |s, v| s.ula.y = v)?;
    byte(rt, "$68", &[193, 2, 32], |s, v| s.ula.control = v)
}

fn print_palette_edges(rt: &impl Print) -> io::Result<()> {
    let masks = [0, 1, 3, 5, 7, 15, 31, 63, 127, 254, 255];
    byte(rt, "$42", &masks, |s, v| s.palette.mask = v)?;
    let choices = [0, 16, 32, 48, 64, 80, 96, 112, 143];
    byte(rt, "$43", &choices, |s, v| s.palette.control = v)?;
    byte(rt, "none held, byte", &[0, 1], |s, v| s.palette.half = v)?;
    byte(rt, "held, byte", &[1, 255], |s, v| {
        s.palette.held = true;
        s.palette.half = v;
    })
}

fn print_tiles_edges(rt: &impl Print) -> io::Result<()> {
    byte(rt, "$4C", &[15, 16], |s, v| s.tiles.transparent = v)?;
    byte(rt, "$6B", &[240, 241, 8], |s, v| s.tiles.control = v)?;
    byte(rt, "$2F", &[3, 4], |s, v| s.tiles.xhigh = v)?;
    byte(rt, "$6E", &[63, 64], |s, v| s.tiles.map = v)?;
    byte(rt, "$6F", &[63, 64], |s, v| s.tiles.definitions = v)
}

fn print_rest_edges(rt: &impl Print) -> io::Result<()> {
    byte(rt, "ULA turn", &[3, 4], |s, v| s.turns.ula = v)?;
    byte(rt, "tilemap turn", &[3, 4], |s, v| s.turns.tiles = v)?;
    byte(rt, "border", &[7, 8], |s, v| s.ports.border = v)?;
    byte(rt, "$BF3B", &[127, 128], |s, v| s.ports.select = v)?;
    byte(rt, "$FF", &[255], |s, v| s.ports.timex = v)
}

fn print_colour_edges(rt: &impl Print) -> io::Result<()> {
    colour(rt, "first ULA palette", |s, v| s.ulafirst[255] = v)?;
    colour(rt, "second ULA palette", |s, v| s.ulasecond[0] = v)?;
    colour(rt, "first tilemap palette", |s, v| s.tilefirst[128] = v)?;
    colour(rt, "second tilemap palette", |s, v| s.tilesecond[255] = v)
}

pub fn print_edges(rt: &impl Print) -> io::Result<()> {
    print_ula_edges(rt)?;
    print_palette_edges(rt)?;
    print_tiles_edges(rt)?;
    print_rest_edges(rt)?;
    print_colour_edges(rt)
}
