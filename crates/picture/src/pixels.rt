// The pixels of a line: three bytes a dot, red, green and blue.
ghost use Rattle.std.specs.Prelude.{◌≡◌, ◌<◌, length};
ghost use Rattle.lists.specs.Tab.{tab};
ghost use Rattle.lists.specs.Search.{all};
ghost use Rattle.picture.specs.Pixels.{is_colour, channel, pixel_byte, pixels_reply, pixels_in};

use reply::Reply;

// Byte i of a screen value's three, red first.
fn channel_of(value: u32, i: usize) -> u8
    ensures { result ≡ channel value i }
{
    if i == 0 {
        return (value / 65536 % 256) as u8;
    }
    if i == 1 {
        return (value / 256 % 256) as u8;
    }
    (value % 256) as u8
}

// Byte k of a line's pixels.
fn pixel_byte(dots: &[u16], k: usize) -> u8
    requires { (length dots.now ≡ 640) × (k < 1920) }
    ensures { result ≡ pixel_byte dots.now k }
{
    let screen = colour::screen_value(u32::from(dots[k / 3]));
    channel_of(screen.unwrap_or(0), k % 3)
}

fn all_colours(dots: &[u16]) -> bool
    requires { length dots.now ≡ 640 }
    ensures { result ≡ all (is_colour dots.now) 640 }
{
    dots.iter().all(|dot| *dot <= 511)
}

fn fill(dots: &[u16], out: &mut [u8])
    requires { (length dots.now ≡ 640) × (length out.old ≡ 1920) }
    ensures { out.new ≡ tab (pixel_byte dots.now) 1920 }
{
    for (k, byte) in out.iter_mut().enumerate() {
        *byte = pixel_byte(dots, k);
    }
}

// The pixels of 640 dots, or the reply that refuses them and leaves the lent buffer.
pub fn line_pixels(dots: &[u16], out: &mut [u8]) -> Reply
    ensures { (result ≡ pixels_reply dots.now out.old)
        × (out.new ≡ pixels_in dots.now out.old) }
{
    if dots.len() != 640 {
        return Reply::BufferLength;
    }
    if out.len() != 1920 {
        return Reply::BufferLength;
    }
    if all_colours(dots) {
        fill(dots, out);
        Reply::Done
    } else {
        Reply::OutOfBounds
    }
}
