// A line of the state in a record with the lent lines; what it shows of the record is read where it stands.
ghost use Rattle.std.specs.Prelude.{◌≡◌, true, length};
ghost use Rattle.lists.specs.Search.{all};
ghost use Rattle.reply.specs.First.{first_hit};
ghost use Rattle.surface.specs.Lines.{is_line};
ghost use Rattle.state_bits.specs.Bits.{layer_order};
ghost use Rattle.record_layout.specs.Record.{state_as};
ghost use Rattle.layer_dots.specs.Numbers.{both_allowed, is_order};
ghost use Rattle.line_replies.specs.Replies.{drawn_if};
ghost use Rattle.lent_drawing.specs.Bounds.{RecordBounds};
ghost use Rattle.layers.specs.Layers.{layered_line, late_pieces};
ghost use Rattle.lent_layers.specs.Lent.{lent_layers_reply, lent_layered};

use layer_dots::layers_reply;
use layers::early_reply;
use lent_drawing::{composed_record, state_judged};
use record_layout::Version;
use reply::{Reply, first_of};
use surface::LineNumber;

// The line, where nothing refuses it.
fn draw_line(
    bytes: &[u8],
    v: Version,
    ula: &[u8],
    tile: &[u8],
    layer2: &[u16],
    sprites: &[u16],
    line: LineNumber,
    dots: &mut [u16],
)
    requires { (RecordBounds v bytes.now) × (is_line line ≡ true) × (length ula.now ≡ 16384) × (length tile.now ≡ 16384) × (length dots.old ≡ 640)
        × (length layer2.now ≡ 640) × (length sprites.now ≡ 640) × (is_order (layer_order (state_as v bytes.now).ula) ≡ true) × (all (both_allowed layer2.now sprites.now) 640 ≡ true) }
    ensures { dots.new ≡ layered_line (state_as v bytes.now) ula.now tile.now layer2.now sprites.now line }
{
    composed_record(bytes, v, ula, tile, line, dots);
    let u = record_groups::ula_at(bytes, v);
    layer_dots::lay_layers(u, layer2, sprites, dots);
}

// What is refused where the record and the lengths are judged: the state, the order, the numbers.
fn late_reply(bytes: &[u8], v: Version, layer2: &[u16], sprites: &[u16]) -> Reply
    requires { (RecordBounds v bytes.now) × (length layer2.now ≡ 640) × (length sprites.now ≡ 640) }
    ensures { result ≡ first_hit (late_pieces (state_as v bytes.now) layer2.now sprites.now) }
{
    let u = record_groups::ula_at(bytes, v);
    first_of(state_judged(bytes, v), layers_reply(u, layer2, sprites))
}

// The line of a record that is judged, or what is refused then.
fn draw_judged(
    bytes: &[u8],
    v: Version,
    ula: &[u8],
    tile: &[u8],
    layer2: &[u16],
    sprites: &[u16],
    line: LineNumber,
    dots: &mut [u16],
) -> Reply
    requires { (RecordBounds v bytes.now) × (is_line line ≡ true) × (length ula.now ≡ 16384) × (length tile.now ≡ 16384) × (length dots.old ≡ 640)
        × (length layer2.now ≡ 640) × (length sprites.now ≡ 640) }
    ensures { (result ≡ first_hit (late_pieces (state_as v bytes.now) layer2.now sprites.now))
        × (dots.new ≡ drawn_if result (layered_line (state_as v bytes.now) ula.now tile.now layer2.now sprites.now line) dots.old) }
{
    let r = late_reply(bytes, v, layer2, sprites);
    if r.is_done() {
        draw_line(bytes, v, ula, tile, layer2, sprites, line, dots);
    }
    r
}

// The 640 dots of a line of the state in a record with those of the lent lines, or the reply that refuses it and leaves the line.
pub fn draw_layers_record(
    bytes: &[u8],
    ula: &[u8],
    tile: &[u8],
    layer2: &[u16],
    sprites: &[u16],
    line: LineNumber,
    dots: &mut [u16],
) -> Reply
    ensures { (result ≡ lent_layers_reply line (length ula.now) (length tile.now) (length dots.old) bytes.now layer2.now sprites.now)
        × (dots.new ≡ lent_layered line ula.now tile.now dots.old bytes.now layer2.now sprites.now) }
{
    let v = record_places::version_of(bytes.len());
    let stored = record::reply_as(bytes, v);
    let early = early_reply(
        line,
        ula.len(),
        tile.len(),
        dots.len(),
        layer2.len(),
        sprites.len(),
        stored,
    );
    if early.is_done() {
        draw_judged(bytes, v, ula, tile, layer2, sprites, line, dots)
    } else {
        early
    }
}
