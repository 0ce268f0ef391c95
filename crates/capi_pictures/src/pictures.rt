// The calls on lines, colours and pictures.
ghost use Rattle.std.specs.Prelude.{◌≡◌, length};
ghost use Rattle.reply.specs.Reply.{reply_number};
ghost use Rattle.colour.specs.Screen.{screen_answer};
ghost use Rattle.reply.specs.Answered.{reply_of, value_of};
ghost use Rattle.capi_pictures.specs.Packed.{LentPacked, LentFewest};
ghost use Rattle.lent_drawing.specs.Drawn.{lent_draw_reply, lent_drawn};
ghost use Rattle.lent_layers.specs.Lent.{lent_layers_reply, lent_layered};
ghost use Rattle.surface.specs.Lines.{numbered};

use lent_layers::draw_layers_record;
use reply::reply_of;
use surface::LineNumber;

// Puts the screen value of a nine-bit colour into `value`: red × 65,536 + green × 256 + blue.
// A colour above 511 is 10 and sets `value` to 0.
#[unsafe(no_mangle)]
pub extern "C" fn narephon_screen_value(colour: u32, value: &mut u32) -> u8
    ensures { (result ≡ reply_number (reply_of (screen_answer colour))) × (value.new ≡ value_of (screen_answer colour)) }
{
    let screen = colour::screen_value(colour);
    *value = screen.unwrap_or(0);
    u8::from(reply_of(screen))
}

// Draws a line, 0 to 255, of the state in the record `bytes` over the two banks, as 640 nine-bit colours in `dots`.
// `ula` and `tile` may be the same bytes. Refused by 1, 2, 3, 16, 17, 18, 6, 7, 5 or 8, in this order, it leaves
// `dots`.
#[unsafe(no_mangle)]
pub extern "C" fn narephon_draw(
    bytes: &[u8],
    ula: &[u8],
    tile: &[u8],
    line: u32,
    dots: &mut [u16],
) -> u8
    ensures { (result ≡ reply_number (lent_draw_reply (numbered line) (length ula.now) (length tile.now) (length dots.old) bytes.now))
        × (dots.new ≡ lent_drawn (numbered line) ula.now tile.now dots.old bytes.now) }
{
    let r = lent::draw_record(bytes, ula, tile, LineNumber(line as usize), dots);
    u8::from(r)
}

// Draws a line as `narephon_draw` does and composes it, in the order of $15 bits 4-2, with the finished lines `layer2` and `sprites` of 640
// numbers each: 0 to 511 a colour, 512 transparent, and in `layer2` a colour + 1,024, which is above all. Refused by 1, 2, 3, 16, 17, 18, 6,
// 7, 5, 8, 19 or 20, in this order, it leaves `dots`.
#[unsafe(no_mangle)]
pub extern "C" fn narephon_draw_layers(
    bytes: &[u8],
    ula: &[u8],
    tile: &[u8],
    layer2: &[u16],
    sprites: &[u16],
    line: u32,
    dots: &mut [u16],
) -> u8
    ensures { (result ≡ reply_number (lent_layers_reply (numbered line) (length ula.now) (length tile.now) (length dots.old) bytes.now layer2.now sprites.now))
        × (dots.new ≡ lent_layered (numbered line) ula.now tile.now dots.old bytes.now layer2.now sprites.now) }
{
    let r = draw_layers_record(
        bytes,
        ula,
        tile,
        layer2,
        sprites,
        LineNumber(line as usize),
        dots,
    );
    u8::from(r)
}

// Packs a picture into `map` and `definitions` with the fewest tiles there can be, at most `allowed` of them, every entry with
// the palette offset given; `count` becomes their number.
// Refused by 3, 12 or 11, in this order, it leaves both buffers and sets `count` to 0.
#[unsafe(no_mangle)]
pub extern "C" fn narephon_pack(
    picture: &[u8],
    allowed: u32,
    offset: u32,
    map: &mut [u8],
    definitions: &mut [u8],
    count: &mut u32,
) -> u8
    ensures { LentPacked picture.now allowed offset map.old definitions.old map.new definitions.new count.new result }
{
    let packing = packer::pack(picture, allowed as usize, offset as usize, map, definitions);
    *count = packing.unwrap_or(0) as u32;
    u8::from(reply_of(packing))
}

// Puts the fewest tiles that draw a picture into `count`: what a packing with 256 allowed counts, without its buffers.
// A picture of another length is 3, one that no map draws is 11; both set `count` to 0.
#[unsafe(no_mangle)]
pub extern "C" fn narephon_fewest(picture: &[u8], count: &mut u32) -> u8
    ensures { LentFewest picture.now count.new result }
{
    let fewest = packer::fewest(picture);
    *count = fewest.unwrap_or(0) as u32;
    u8::from(reply_of(fewest))
}
