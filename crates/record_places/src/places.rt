// The places of a record's parts, counted from the front, by the names of `record_layout`'s Places. Those after $33, and the
// length, are of version 1: `in_version` gives those of another.

// The number of bytes following, two bytes.
pub const COUNT: usize = 0;

pub const VERSION: usize = 2;
// The first part.
pub const PARTS: usize = 3;

// $14
pub const ULA_TRANSPARENT: usize = 3;
// $15
pub const LAYERS: usize = 4;
// $08
pub const PERIPHERAL: usize = 5;
// $43
pub const PALETTE_CONTROL: usize = 6;
// $40
pub const INDEX: usize = 7;
// $42
pub const MASK: usize = 8;
// $4A
pub const FALLBACK: usize = 9;
// $4C
pub const TILE_TRANSPARENT: usize = 10;
// $68
pub const ULA_CONTROL: usize = 11;
// $6B
pub const TILE_CONTROL: usize = 12;
// $6C
pub const ATTRIBUTE: usize = 13;
// $2F
pub const TILE_X_HIGH: usize = 14;
// $30
pub const TILE_X_LOW: usize = 15;
// $31
pub const TILE_Y: usize = 16;
// $6E
pub const MAP: usize = 17;
// $6F
pub const DEFINITIONS: usize = 18;
// $32
pub const LORES_X: usize = 19;
// $33
pub const LORES_Y: usize = 20;
// X1, X2, Y1, Y2 of $1A
pub const ULA_CLIP: usize = 21;
// X1, X2, Y1, Y2 of $1B
pub const TILE_CLIP: usize = 25;

pub const ULA_TURN: usize = 29;

pub const TILE_TURN: usize = 30;
// Whether a half colour is held, and the held byte.
pub const HELD: usize = 31;

pub const HALF: usize = 32;

pub const BORDER: usize = 33;
// $FF
pub const TIMEX: usize = 34;
// $BF3B
pub const SELECT: usize = 35;
// ULAplus is on.
pub const PLUS_ON: usize = 36;

pub const FRAME: usize = 37;
// The 64 ULAplus registers.
pub const PLUS: usize = 38;

pub const ULA_FIRST: usize = 102;

pub const ULA_SECOND: usize = 614;

pub const TILE_FIRST: usize = 1126;

pub const TILE_SECOND: usize = 1638;

// The bytes in all.
pub const LENGTH: usize = 2150;
