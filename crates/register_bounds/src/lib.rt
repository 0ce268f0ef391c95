// The bounds of the registers, as tests of one byte: a lawful state, a write and a stored record all go by these. The tests of a
// group of registers and of a state are in `state`.
#![tactic(auto)]

ghost use Rattle.std.specs.Prelude.{◌≡◌};
ghost use Rattle.register_bounds.specs.Bounds.{offset_yfits, ula_control_fits, is_mask, choice_of, is_choice, half_fits, tile_transparent_fits, tile_control_fits, x_high_fits, base_fits, turn_fits, border_fits, select_fits};

// $27 and $33
pub fn offset_y_fits(v: u8) -> bool
    ensures { result ≡ offset_yfits v }
{
    v <= 191
}

// One of the eight ink masks.
pub fn is_mask(x: u8) -> bool
    ensures { result ≡ is_mask x }
{
    (x == 1) | (x == 3) | (x == 7) | (x == 15) | (x == 31) | (x == 63) | (x == 127) | (x == 255)
}

// The palette that $43 chooses to be written.
pub fn choice_of(control: u8) -> u8
    ensures { result ≡ choice_of control }
{
    control / 16 % 8
}

// One of the four palettes, by $43 bits 6-4.
pub fn is_choice(control: u8) -> bool
    ensures { result ≡ is_choice control }
{
    let choice = choice_of(control);
    (choice == 0) | (choice == 4) | (choice == 3) | (choice == 7)
}

// The held byte of $44.
pub fn half_fits(held: bool, v: u8) -> bool
    ensures { result ≡ half_fits held v }
{
    held | (v == 0)
}

// $4C
pub fn tile_transparent_fits(v: u8) -> bool
    ensures { result ≡ tile_transparent_fits v }
{
    v <= 15
}

// $68
pub fn ula_control_fits(v: u8) -> bool
    ensures { result ≡ ula_control_fits v }
{
    v / 2 % 32 == 0
}

// $6B
pub fn tile_control_fits(v: u8) -> bool
    ensures { result ≡ tile_control_fits v }
{
    v % 16 == 0
}

// $2F
pub fn x_high_fits(v: u8) -> bool
    ensures { result ≡ x_high_fits v }
{
    v <= 3
}

// $6E and $6F
pub fn base_fits(v: u8) -> bool
    ensures { result ≡ base_fits v }
{
    v < 64
}

// A clip's turn.
pub fn turn_fits(turn: u8) -> bool
    ensures { result ≡ turn_fits turn }
{
    turn <= 3
}

// $FE
pub fn border_fits(v: u8) -> bool
    ensures { result ≡ border_fits v }
{
    v <= 7
}

// $BF3B
pub fn select_fits(v: u8) -> bool
    ensures { result ≡ select_fits v }
{
    v < 128
}
