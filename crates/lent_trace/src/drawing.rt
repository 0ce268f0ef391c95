// The state in a record, drawn by a trace. A state that is read is lawful, whatever the bytes: where they are no record it is the reset state.
ghost use Rattle.std.specs.Prelude.{◌≡◌, length};
ghost use Rattle.line_replies.specs.Replies.{drawn_if};
ghost use Rattle.lent_trace.specs.Lent.{lent_traced, lent_traced_dots, lent_whole, lent_carried_dots, lent_replies, lent_places};

use reply::Reply;
use surface::LineNumber;
use trace::Traced;

// The 640 dots of a line of the state in a record, after every entry stamped with the line or less; or the reply that refuses it, with a
// refused entry's place, and the lent line as it was.
pub fn draw_traced_record(
    bytes: &[u8],
    trace: &[u8],
    ula: &[u8],
    tile: &[u8],
    line: LineNumber,
    dots: &mut [u16],
) -> Traced
    ensures { (result ≡ lent_traced line ula.now tile.now dots.old bytes.now trace.now)
        × (dots.new ≡ lent_traced_dots line ula.now tile.now dots.old bytes.now trace.now) }
{
    let read = record::read_record(bytes);
    let own = read.reply;
    let s = read.state;
    trace::draw_traced_as(own, line, ula, tile, s, trace, dots)
}

// Lines 0 to 255 of the state in a record, carried along, with their replies and places; or the reply that refuses the whole call and leaves
// all three buffers.
pub fn draw_carried_record(
    bytes: &[u8],
    trace: &[u8],
    ula: &[u8],
    tile: &[u8],
    dots: &mut [u16],
    replies: &mut [u8],
    places: &mut [u16],
) -> Reply
    ensures { (result ≡ lent_whole (length ula.now) (length tile.now) (length dots.old) (length replies.old) (length places.old) bytes.now trace.now)
        × (dots.new ≡ drawn_if result (lent_carried_dots bytes.now trace.now ula.now tile.now dots.old) dots.old)
        × (replies.new ≡ drawn_if result (lent_replies bytes.now trace.now) replies.old)
        × (places.new ≡ drawn_if result (lent_places bytes.now trace.now) places.old) }
{
    let read = record::read_record(bytes);
    let own = read.reply;
    let s = read.state;
    trace::draw_carried_as(own, ula, tile, s, trace, dots, replies, places)
}
