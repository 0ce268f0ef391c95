// The standard colours of a Spectrum: sixteen eight-bit colours, the ULA palette painted with them by register writes, and a
// state that shows them all.
#![tactic(auto)]

ghost use Rattle.std.specs.Prelude.{◌≡◌};
ghost use Rattle.spectrum_colours.specs.Colours.{after_write, zx_colour, ula_painted, standard_state};

use state::State;

// The state after a write of a register.
pub fn set(s: State, number: u8, value: u8) -> State
    ensures { result ≡ after_write s number value }
{
    let a = registers::write_register(s, number, value);
    a.state
}

const COLOURS: [u8; 16] = [
    0x00, 0x02, 0xA0, 0xA2, 0x14, 0x16, 0xB4, 0xB6, 0x00, 0x03, 0xE0, 0xE3, 0x1C, 0x1F, 0xFC, 0xFF,
];

// Black, blue, red, magenta, green, cyan, yellow, white, and bright; then from black again.
pub fn zx_colour(i: u8) -> u8
    ensures { result ≡ zx_colour i }
{
    let k = (i % 16) as usize;
    COLOURS[k]
}

// Inks and papers, plain and bright: 32 colours from the palette index on, which a reset leaves at 0.
pub fn paint_ula(s: State) -> State
    ensures { result ≡ ula_painted s 32 }
{
    let mut t = s;
    for i in 0..32 {
        t = set(t, 0x41, zx_colour(i));
    }
    t
}

// Bright magenta is $E3, which is transparent after a reset: with $E3 as the fallback as well it shows all the same, and so does every
// colour of ULAplus.
pub fn standard_state() -> State
    ensures { result ≡ standard_state }
{
    paint_ula(set(state::reset(), 0x4A, 0xE3))
}
