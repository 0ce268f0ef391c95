// The form of a file, by its length and its byte of port $FF.
ghost use Rattle.std.specs.Prelude.{◌≡◌, Bool, false, ◌≤◌, length};
ghost use Rattle.scr_forms.specs.Files.{length_of, colours_size, is_file_of, shape_or, shape_of, port_in};

use crate::forms::row_of;
use ula_mode::Mode;

// The mode whose form a file has, or none (`Mode::Missing`), and whether its last 64 bytes are colours.
#[derive(Clone, Copy)]
pub struct Shape {
    pub mode: Mode,
    pub colours: bool,
}

// Port $FF after reading: the form's own value, or the byte after the parts, which the caller sees is there.
pub fn port_in(mode: Mode, file: &[u8]) -> u8
    requires { length_of mode false ≤ length file.now }
    ensures { result ≡ port_in mode file.now }
{
    let row = row_of(mode);
    let at = row.first + row.second;
    if row.port == 1 { file[at] } else { row.value }
}

// How many bytes the colours are.
pub fn colours_size(colours: bool) -> usize
    ensures { (result ≡ colours_size colours) × (result ≤ 64) }
{
    if colours { 64 } else { 0 }
}

// Whether a file has the form of a mode. A form without the port's byte has a value that is its own low three bits.
fn is_file_of(mode: Mode, colours: bool, file: &[u8]) -> bool
    ensures { result ≡ is_file_of mode colours file.now }
{
    let row = row_of(mode);
    let n = row.first + row.second + row.port + colours_size(colours);
    if file.len() == n {
        port_in(mode, file) % 8 == row.value
    } else {
        false
    }
}

// The form of a mode, where the file has it.
fn shape_or(mode: Mode, file: &[u8], rest: Shape) -> Shape
    ensures { result ≡ shape_or mode file.now rest }
{
    if is_file_of(mode, false, file) {
        return Shape {
            mode,
            colours: false,
        };
    }
    if is_file_of(mode, true, file) {
        return Shape {
            mode,
            colours: true,
        };
    }
    rest
}

// The form of a file.
pub fn shape_of(file: &[u8]) -> Shape
    ensures { result ≡ shape_of file.now }
{
    let none = Shape {
        mode: Mode::Missing,
        colours: false,
    };
    let hires = shape_or(Mode::HighResolution, file, none);
    let high_colour = shape_or(Mode::HighColour, file, hires);
    shape_or(Mode::Standard, file, high_colour)
}
