// Drawing from a lent record: what a line shows of it is read where it stands in the record's version, which its length tells, and no whole
// state is made.
ghost use Rattle.std.specs.Prelude.{◌≡◌, true, [], ◌∷◌, length};
ghost use Rattle.lists.specs.Tab.{tab};
ghost use Rattle.reply.specs.First.{first_hit};
ghost use Rattle.surface.specs.Lines.{is_line};
ghost use Rattle.record_layout.specs.Record.{state_as};
ghost use Rattle.ula.specs.Lines.{ula_dot};
ghost use Rattle.line.specs.Lines.{composed_line, drawn_line};
ghost use Rattle.line.specs.Shown.{ShownBytes};
ghost use Rattle.line_replies.specs.Replies.{line_reply, lengths_reply, state_reply, drawn_if};
ghost use Rattle.lent_drawing.specs.Drawn.{lent_draw_reply, lent_drawn};
ghost use Rattle.lent_drawing.specs.Bounds.{RecordBounds, tiles_laid};

use record_layout::Version;
use reply::{Reply, first_of};
use surface::LineNumber;

// The ULA's dots of a line, and what the types of the bytes read give, which `composed_record` hands on.
fn lay_ula(bytes: &[u8], v: Version, bank: &[u8], line: LineNumber, dots: &mut [u16])
    requires { (RecordBounds v bytes.now) × (is_line line ≡ true) × (length bank.now ≡ 16384) × (length dots.old ≡ 640) }
    ensures { (dots.new ≡ tab (ula_dot (state_as v bytes.now) bank.now line) 640) × (ShownBytes (state_as v bytes.now)) }
{
    let u = record_groups::ula_at(bytes, v);
    let p = record_groups::palette_at(bytes, v);
    let ports = record_groups::ports_at(bytes, v);
    let frame = record_groups::frame_at(bytes, v);
    let clip = record_groups::ula_clip_at(bytes, v);
    let plus = record_groups::plus_at(bytes, v);
    let pal = record_colours::colours_at(bytes, record_places::ula_place(p, v));
    ula::ula_row(u, p, ports, frame, &clip, &plus, &pal, bank, line, dots);
}

// The tilemap's dots composed with the ULA's in dots.
fn lay_tiles(bytes: &[u8], v: Version, bank: &[u8], line: LineNumber, dots: &mut [u16])
    requires { (RecordBounds v bytes.now) × (is_line line ≡ true) × (length bank.now ≡ 16384) × (length dots.old ≡ 640) }
    ensures { dots.new ≡ tiles_laid (state_as v bytes.now) bank.now line dots.old }
{
    let u = record_groups::ula_at(bytes, v);
    let t = record_groups::tiles_at(bytes);
    let clip = record_groups::tile_clip_at(bytes, v);
    let pal = record_colours::colours_at(bytes, record_places::tile_place(t, v));
    line_tiles::tiles_over(u, t, &clip, &pal, bank, line, dots);
}

// The composed line of a record that is judged, and what the types of its bytes give, by which its dots are bounded. Where the tilemap is
// off its palette is not read, as one call of `line` with both palettes would have to.
pub fn composed_record(
    bytes: &[u8],
    v: Version,
    ula: &[u8],
    tile: &[u8],
    line: LineNumber,
    dots: &mut [u16],
)
    requires { (RecordBounds v bytes.now) × (is_line line ≡ true) × (length ula.now ≡ 16384) × (length tile.now ≡ 16384) × (length dots.old ≡ 640) }
    ensures { (dots.new ≡ composed_line (state_as v bytes.now) ula.now tile.now line) × (ShownBytes (state_as v bytes.now)) }
{
    lay_ula(bytes, v, ula, line, dots);
    let t = record_groups::tiles_at(bytes);
    if state_bits::tilemap_on(t) {
        lay_tiles(bytes, v, tile, line, dots);
    }
}

// The finished line of a record that is judged.
fn draw_line(bytes: &[u8], v: Version, ula: &[u8], tile: &[u8], line: LineNumber, dots: &mut [u16])
    requires { (RecordBounds v bytes.now) × (is_line line ≡ true) × (length ula.now ≡ 16384) × (length tile.now ≡ 16384) × (length dots.old ≡ 640) }
    ensures { dots.new ≡ drawn_line (state_as v bytes.now) ula.now tile.now line }
{
    composed_record(bytes, v, ula, tile, line, dots);
    let u = record_groups::ula_at(bytes, v);
    line_dots::finish_line(colour::widen(u.fallback), dots);
}

// What the state in a record is refused for.
pub fn state_judged(bytes: &[u8], v: Version) -> Reply
    requires { RecordBounds v bytes.now }
    ensures { result ≡ state_reply (state_as v bytes.now).ula (state_as v bytes.now).tiles (state_as v bytes.now).palette (state_as v bytes.now).ports }
{
    let u = record_groups::ula_at(bytes, v);
    let t = record_groups::tiles_at(bytes);
    let p = record_groups::palette_at(bytes, v);
    let ports = record_groups::ports_at(bytes, v);
    line_replies::state_reply(u, t, p, ports)
}

// The line of a record that is judged, or what the state in it is refused for.
fn draw_judged(
    bytes: &[u8],
    v: Version,
    ula: &[u8],
    tile: &[u8],
    line: LineNumber,
    dots: &mut [u16],
) -> Reply
    requires { (RecordBounds v bytes.now) × (is_line line ≡ true) × (length ula.now ≡ 16384) × (length tile.now ≡ 16384) × (length dots.old ≡ 640) }
    ensures { (result ≡ state_reply (state_as v bytes.now).ula (state_as v bytes.now).tiles (state_as v bytes.now).palette (state_as v bytes.now).ports)
        × (dots.new ≡ drawn_if result (drawn_line (state_as v bytes.now) ula.now tile.now line) dots.old) }
{
    let r = state_judged(bytes, v);
    if r.is_done() {
        draw_line(bytes, v, ula, tile, line, dots);
    }
    r
}

// What refuses a drawing before the state in the record is judged: the line, the lengths, the record.
fn early_reply(line: LineNumber, ula: usize, tile: usize, dots: usize, stored: Reply) -> Reply
    ensures { result ≡ first_hit (line_reply line ∷ lengths_reply ula tile dots ∷ stored ∷ []) }
{
    let lengths = line_replies::lengths_reply(ula, tile, dots);
    first_of(line_replies::line_reply(line), first_of(lengths, stored))
}

// The 640 dots of a line of the state in a record, or the reply that refuses it and leaves the lent line.
pub fn draw_record(
    bytes: &[u8],
    ula: &[u8],
    tile: &[u8],
    line: LineNumber,
    dots: &mut [u16],
) -> Reply
    ensures { (result ≡ lent_draw_reply line (length ula.now) (length tile.now) (length dots.old) bytes.now)
        × (dots.new ≡ lent_drawn line ula.now tile.now dots.old bytes.now) }
{
    let v = record_places::version_of(bytes.len());
    let stored = record::reply_as(bytes, v);
    let early = early_reply(line, ula.len(), tile.len(), dots.len(), stored);
    if early.is_done() {
        draw_judged(bytes, v, ula, tile, line, dots)
    } else {
        early
    }
}
