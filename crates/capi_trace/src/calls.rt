// The drawings by a recorded trace of register and port writes, of the state in a record of either version. Record and trace stay as they are.
ghost use Rattle.std.specs.Prelude.{◌≡◌, length};
ghost use Rattle.reply.specs.Reply.{reply_number};
ghost use Rattle.surface.specs.Lines.{numbered};
ghost use Rattle.line_replies.specs.Replies.{drawn_if};
ghost use Rattle.lent_trace.specs.Lent.{lent_traced, lent_traced_dots, lent_whole, lent_carried_dots, lent_replies, lent_places};

use surface::LineNumber;

// Draws line `line` of the state in the record `bytes`, after every entry of `trace` stamped with this line or less, into the 640 numbers of `dots`. Refused by
// 1, 2, 3, 16, 17, 18, 25, 26, then 9 or 10 of an entry, then 6, 7, 5, 8; a refusal leaves `dots`. `place` is the place of a refused entry,
// counted from 0, and 0 with every other reply.
#[unsafe(no_mangle)]
pub extern "C" fn narephon_draw_traced(
    bytes: &[u8],
    trace: &[u8],
    ula: &[u8],
    tile: &[u8],
    line: u32,
    dots: &mut [u16],
    place: &mut u32,
) -> u8
    ensures { (result ≡ reply_number (lent_traced (numbered line) ula.now tile.now dots.old bytes.now trace.now).reply)
        × (dots.new ≡ lent_traced_dots (numbered line) ula.now tile.now dots.old bytes.now trace.now)
        × (place.new ≡ (lent_traced (numbered line) ula.now tile.now dots.old bytes.now trace.now).place) }
{
    let got = lent_trace::draw_traced_record(
        bytes,
        trace,
        ula,
        tile,
        LineNumber(line as usize),
        dots,
    );
    *place = got.place as u32;
    let r = got.reply;
    u8::from(r)
}

// Draws lines 0 to 255 of the state in the record `bytes` one after the other into the 163,840 numbers of `dots`, with the state carried along, and puts each line's
// reply and place into the 256 numbers of `replies` and of `places`: all as if `narephon_draw_traced` were asked for each line. A line that is refused leaves its 640
// numbers and does not stop later ones. Refused whole by 2, 3, 16, 17, 18, 25 or 26, it leaves all three.
#[unsafe(no_mangle)]
pub extern "C" fn narephon_draw_carried(
    bytes: &[u8],
    trace: &[u8],
    ula: &[u8],
    tile: &[u8],
    dots: &mut [u16],
    replies: &mut [u8],
    places: &mut [u16],
) -> u8
    ensures { (result ≡ reply_number (lent_whole (length ula.now) (length tile.now) (length dots.old) (length replies.old) (length places.old) bytes.now trace.now))
        × (dots.new ≡ drawn_if (lent_whole (length ula.now) (length tile.now) (length dots.old) (length replies.old) (length places.old) bytes.now trace.now)
        (lent_carried_dots bytes.now trace.now ula.now tile.now dots.old) dots.old)
        × (replies.new ≡ drawn_if (lent_whole (length ula.now) (length tile.now) (length dots.old) (length replies.old) (length places.old) bytes.now trace.now)
        (lent_replies bytes.now trace.now) replies.old)
        × (places.new ≡ drawn_if (lent_whole (length ula.now) (length tile.now) (length dots.old) (length replies.old) (length places.old) bytes.now trace.now)
        (lent_places bytes.now trace.now) places.old) }
{
    let r = lent_trace::draw_carried_record(bytes, trace, ula, tile, dots, replies, places);
    u8::from(r)
}
