// The traces: the number of bytes following, the version, and four bytes an entry, which are line, kind, number and byte.

// No entries.
pub const NONE: [u8; 3] = [0, 1, 1];

// Colour 7 at index 16, then border 1.
pub const STAMPS: [u8; 15] = [0, 13, 1, 100, 0, 0x40, 16, 100, 0, 0x41, 3, 101, 1, 0, 1];

// Border 1 from the first line on, and 0 in the last.
pub const ENDS: [u8; 11] = [0, 9, 1, 0, 1, 0, 1, 255, 1, 0, 0];

pub const TWICE: [u8; 11] = [0, 9, 1, 50, 1, 0, 1, 50, 1, 0, 0];

// Colour 449 at index 16, its halves ten lines apart.
pub const HALVES: [u8; 15] = [0, 13, 1, 10, 0, 0x40, 16, 10, 0, 0x44, 0xE0, 20, 0, 0x44, 1];

// There is no register $01.
pub const NO_REGISTER: [u8; 15] = [0, 13, 1, 10, 1, 0, 1, 20, 0, 0x01, 5, 30, 1, 0, 0];

// 5 is no ink mask.
pub const NO_MASK: [u8; 15] = [0, 13, 1, 10, 1, 0, 1, 20, 0, 0x42, 5, 30, 1, 0, 0];

pub const FAR_SELECT: [u8; 7] = [0, 5, 1, 0, 1, 2, 0x80];

// The first of two that are refused is told.
pub const TWO_BAD: [u8; 11] = [0, 9, 1, 5, 0, 0x42, 5, 5, 0, 0x01, 0];

pub const LORES_WITH_TILES: [u8; 19] = [
    0, 17, 1, 10, 0, 0x15, 0x80, 10, 0, 0x6B, 0x80, 20, 0, 0x15, 0, 20, 0, 0x6B, 0,
];

// ULAplus is switched in the mode group, which $BF3B selects by 64.
pub const NEXT_WITH_PLUS: [u8; 23] = [
    0, 21, 1, 10, 0, 0x43, 1, 10, 1, 2, 64, 10, 1, 3, 1, 20, 1, 3, 0, 20, 0, 0x43, 0,
];

// Port $FF counts while $08 bit 2 is set.
pub const NO_MODE: [u8; 15] = [0, 13, 1, 10, 0, 0x08, 4, 10, 1, 1, 3, 20, 0, 0x08, 0];

// An offset of 768.
pub const FAR_OFFSET: [u8; 15] = [0, 13, 1, 10, 0, 0x6B, 0x80, 10, 0, 0x2F, 3, 20, 0, 0x6B, 0];

pub const TWO_BYTES: [u8; 2] = [0, 1];

// One byte follows.
pub const OTHER_NUMBER: [u8; 3] = [0, 2, 1];

pub const VERSION_2: [u8; 3] = [0, 1, 2];

// An entry of two bytes.
pub const CUT: [u8; 5] = [0, 3, 1, 0, 0];

pub const KIND_2: [u8; 7] = [0, 5, 1, 0, 2, 0, 0];

pub const PORT_4: [u8; 7] = [0, 5, 1, 0, 1, 4, 0];

pub const FALLING: [u8; 11] = [0, 9, 1, 6, 1, 0, 1, 5, 1, 0, 1];

// Lines that fall, and port 4 after them.
pub const BOTH: [u8; 15] = [0, 13, 1, 6, 1, 0, 1, 5, 1, 0, 1, 7, 1, 4, 0];

pub const FALLING_BAD: [u8; 11] = [0, 9, 1, 6, 0, 0x01, 0, 5, 0, 0x01, 0];

// A state that is refused by 6, and an entry after it.
pub const BAD_AFTER_TILES: [u8; 15] = [
    0, 13, 1, 10, 0, 0x15, 0x80, 10, 0, 0x6B, 0x80, 10, 0, 0x01, 0,
];
