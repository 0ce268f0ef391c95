// A drawing with lent lines.
ghost use Rattle.std.specs.Prelude.{◌≡◌, true, length};
ghost use Rattle.reply.specs.First.{first_hit};
ghost use Rattle.state.specs.Lawful.{lawful_state};
ghost use Rattle.surface.specs.Lines.{is_line};
ghost use Rattle.lists.specs.Search.{all};
ghost use Rattle.state_bits.specs.Bits.{layer_order};
ghost use Rattle.layer_dots.specs.Numbers.{both_allowed, is_order};
ghost use Rattle.line_replies.specs.Replies.{drawn_if};
ghost use Rattle.layers.specs.Layers.{layered_line, early_pieces, layers_reply};

use layer_dots::{layers_reply, lent_reply};
use line_replies::{lengths_reply, line_reply, state_reply};
use reply::{Reply, first_of};
use state::{State, lawful_reply};
use surface::LineNumber;

// What refuses before the numbers of the lent lines are looked at, since that needs both to be 640 long: 1; 2, 3; and the state's own
// reply.
pub fn early_reply(
    line: LineNumber,
    ula: usize,
    tile: usize,
    out: usize,
    layer2: usize,
    sprites: usize,
    state: Reply,
) -> Reply
    ensures { result ≡ first_hit (early_pieces line ula tile out layer2 sprites state) }
{
    let last = first_of(lent_reply(layer2, sprites), state);
    first_of(
        line_reply(line),
        first_of(lengths_reply(ula, tile, out), last),
    )
}

// The replies in their order.
fn judge(
    line: LineNumber,
    ula: usize,
    tile: usize,
    out: usize,
    s: State,
    layer2: &[u16],
    sprites: &[u16],
) -> Reply
    ensures { result ≡ layers_reply line ula tile out s layer2.now sprites.now }
{
    let lawful = lawful_reply(s);
    let early = early_reply(line, ula, tile, out, layer2.len(), sprites.len(), lawful);
    if early.is_done() {
        first_of(
            state_reply(s.ula, s.tiles, s.palette, s.ports),
            layers_reply(s.ula, layer2, sprites),
        )
    } else {
        early
    }
}

// The line, where nothing refuses it.
fn draw_line(
    s: State,
    line: LineNumber,
    ula: &[u8],
    tile: &[u8],
    layer2: &[u16],
    sprites: &[u16],
    out: &mut [u16],
)
    requires { (lawful_state s ≡ true) × (is_line line ≡ true) × (length ula.now ≡ 16384) × (length tile.now ≡ 16384) × (length out.old ≡ 640)
        × (length layer2.now ≡ 640) × (length sprites.now ≡ 640) × (is_order (layer_order s.ula) ≡ true) × (all (both_allowed layer2.now sprites.now) 640 ≡ true) }
    ensures { out.new ≡ layered_line s ula.now tile.now layer2.now sprites.now line }
{
    line::composed_line(s, line, ula, tile, out);
    layer_dots::lay_layers(s.ula, layer2, sprites, out);
}

// The 640 dots of a line with those of the lent lines, or the reply that refuses it and leaves the line.
pub fn draw_layers(
    line: LineNumber,
    ula: &[u8],
    tile: &[u8],
    layer2: &[u16],
    sprites: &[u16],
    s: State,
    out: &mut [u16],
) -> Reply
    ensures { (result ≡ layers_reply line (length ula.now) (length tile.now) (length out.old) s layer2.now sprites.now)
        × (out.new ≡ drawn_if result (layered_line s ula.now tile.now layer2.now sprites.now line) out.old) }
{
    let r = judge(line, ula.len(), tile.len(), out.len(), s, layer2, sprites);
    if r.is_done() {
        draw_line(s, line, ula, tile, layer2, sprites, out);
    }
    r
}
