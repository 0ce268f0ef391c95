// What a drawing is refused for, piece by piece.
ghost use Rattle.std.specs.Prelude.{◌≡◌};
ghost use Rattle.line_replies.specs.Replies.{line_reply, lengths_reply, lores_with_tiles, next_with_plus, no_mode, far_offset, state_reply};

use reply::Reply;
use state::{Palette, Ports, Tiles, Ula};
use surface::LineNumber;

// Done where the line can be drawn.
pub fn line_reply(line: LineNumber) -> Reply
    ensures { result ≡ line_reply line }
{
    if surface::is_line(line) {
        Reply::Done
    } else {
        Reply::NoLine
    }
}

// Done where both banks and the line have their lengths.
pub fn lengths_reply(ula: usize, tile: usize, out: usize) -> Reply
    ensures { result ≡ lengths_reply ula tile out }
{
    if (ula == 16384) & (tile == 16384) {
        if out == 640 {
            Reply::Done
        } else {
            Reply::BufferLength
        }
    } else {
        Reply::BankLength
    }
}

fn lores_with_tiles(u: Ula, t: Tiles) -> bool
    ensures { result ≡ lores_with_tiles u t }
{
    state_bits::lores_on(u) & state_bits::tilemap_on(t)
}

fn next_with_plus(p: Palette, ports: Ports) -> bool
    ensures { result ≡ next_with_plus p ports }
{
    state_bits::next_on(p) & ports.plus
}

fn no_mode(u: Ula, ports: Ports) -> bool
    ensures { result ≡ no_mode u ports }
{
    let missing = ula_mode::mode_of(u, ports).is_missing();
    state_bits::ula_on(u) & missing
}

fn far_offset(t: Tiles) -> bool
    ensures { result ≡ far_offset t }
{
    let width = state_bits::width_of(state_bits::columns80(t));
    let x = state_bits::x_offset(t);
    state_bits::tilemap_on(t) & (width <= x)
}

// What the state alone is refused for.
pub fn state_reply(u: Ula, t: Tiles, p: Palette, ports: Ports) -> Reply
    ensures { result ≡ state_reply u t p ports }
{
    if lores_with_tiles(u, t) {
        return Reply::LoresWithTiles;
    }
    if next_with_plus(p, ports) {
        return Reply::NextWithPlus;
    }
    if no_mode(u, ports) {
        return Reply::NoMode;
    }
    if far_offset(t) {
        return Reply::FarOffset;
    }
    Reply::Done
}
