// The picture: every line drawn first, then the head and each line's pixels twice.
ghost use Rattle.std.specs.Prelude.{◌≡◌, length};

use host::complaints::Complaints;
use state::State;
use std::io;
use surface::LineNumber;

// The trace without entries, by which each line is drawn as it is without one.
pub const NO_ENTRIES: [u8; 3] = [0, 1, 1];

// What a picture is drawn of.
#[derive(Clone, Copy)]
pub struct Scene<'a> {
    pub state: State,
    pub ula: &'a [u8],
    pub tile: &'a [u8],
    pub trace: &'a [u8],
}

// Each line twice, so that the picture has the right proportions.
fn write_line(rt: &impl Print, dots: &[u16]) -> io::Result<()> {
    let mut bytes = [0u8; 1920];
    picture::line_pixels(dots, &mut bytes);
    rt.write_all(&bytes)?;
    rt.write_all(&bytes)
}

fn write_picture(rt: &impl Print, dots: &[u16]) -> io::Result<()>
    requires { length dots.now ≡ 163840 }
{
    rt.write_all(&picture::header())?;
    for line in dots.chunks_exact(640) {
        write_line(rt, line)?;
    }
    Ok(())
}

// A refused line asked for alone, since the numbers of a carried drawing are no replies. A state without entries refuses every line alike.
fn tell_line<E: Print>(complaints: &Complaints<E>, line: usize, scene: &Scene) -> io::Result<()> {
    let mut dots = [0u16; 640];
    let got = trace::draw_traced(
        LineNumber(line),
        scene.ula,
        scene.tile,
        scene.state,
        scene.trace,
        &mut dots,
    );
    let r = got.reply;
    if scene.trace.len() == NO_ENTRIES.len() {
        complaints.refused(r)
    } else {
        complaints.line_refused(line, r, got.place)
    }
}

// The lines of a state by a trace.
pub fn show<E: Print>(
    rt: &impl Print,
    complaints: &Complaints<E>,
    scene: &Scene,
) -> io::Result<()> {
    let mut dots = [0u16; 163840];
    let mut replies = [0u8; 256];
    let mut places = [0u16; 256];
    let r = trace::draw_carried(
        scene.ula,
        scene.tile,
        scene.state,
        scene.trace,
        &mut dots,
        &mut replies,
        &mut places,
    );
    if !r.is_done() {
        return complaints.refused(r);
    }
    match replies.iter().position(|reply| *reply != 0) {
        Some(line) => tell_line(complaints, line, scene),
        None => write_picture(rt, &dots),
    }
}
