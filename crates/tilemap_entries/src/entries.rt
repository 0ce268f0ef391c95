// The entry of a cell, and the number of its tile.
ghost use Rattle.std.specs.Prelude.{◌≡◌, ◌+◌, ◌%◌, ◌<◌, length};
ghost use Rattle.state_bits.specs.Bits.{width_of};
ghost use Rattle.tilemap_entries.specs.Entries.{ty_of, cell_of, fetched, entry_address, high_of, entry_at, tile_number};
ghost use Rattle.tilemap_entries.specs.Bounds.{SetupBounds, EntryBounds};

// How a tilemap lies in its bank and on the surface. Its bounds stand in contracts and not in a ghost field: definitions and claims speak of
// setups with any numbers.
#[derive(Clone, Copy)]
pub struct TileSetup {
    // 80 columns, else 40
    pub columns80: bool,
    // One byte an entry, else two.
    pub single: bool,
    // $6C, the high byte of one-byte entries
    pub attribute: usize,
    // The ULA is on.
    pub ula: bool,
    // The addresses of map and definitions.
    pub map: usize,
    pub definitions: usize,
    // The X offset and $31.
    pub x: usize,
    pub y: usize,
}

// The two bytes of a cell's entry.
#[derive(Clone, Copy)]
pub struct Entry {
    pub low: usize,
    pub high: usize,
}

// Every byte of the tile bank is fetched here.
pub fn fetch(bank: &[u8], at: usize) -> usize
    requires { length bank.now ≡ 16384 }
    ensures { (result ≡ fetched bank.now at) × (result < 256) }
{
    usize::from(bank[at % 16384])
}

// A place across the map, which goes round after its last column.
pub fn wrapped(columns80: bool, v: usize) -> usize
    ensures { (result ≡ v % width_of columns80) × (result < 640) }
{
    if columns80 { v % 640 } else { v % 320 }
}

// The row of the map that line y shows.
pub fn down_map(t: TileSetup, y: usize) -> usize
    requires { (t.y < 256) × (y < 256) }
    ensures { (result ≡ ty_of t y) × (result < 256) }
{
    (y + t.y) % 256
}

// The cell that holds (tx, ty) of the map.
pub fn cell_of(columns80: bool, tx: usize, ty: usize) -> usize
    requires { (tx < 640) × (ty < 256) }
    ensures { (result ≡ cell_of columns80 tx ty) × (result < 2560) }
{
    if columns80 {
        ty / 8 * 80 + tx / 8
    } else {
        ty / 8 * 40 + tx / 8
    }
}

fn entry_address(t: TileSetup, cell: usize) -> usize
    requires { (SetupBounds t) × (cell < 2560) }
    ensures { (result ≡ entry_address t cell) × (result < 32768) }
{
    if t.single {
        t.map + cell
    } else {
        t.map + cell * 2
    }
}

fn high_of(t: TileSetup, bank: &[u8], at: usize) -> usize
    requires { (SetupBounds t) × (at < 32768) × (length bank.now ≡ 16384) }
    ensures { (result ≡ high_of t bank.now at) × (result < 256) }
{
    if t.single {
        t.attribute
    } else {
        fetch(bank, at + 1)
    }
}

// An entry of two bytes, or of one with $6C.
pub fn entry_at(t: TileSetup, bank: &[u8], cell: usize) -> Entry
    requires { (SetupBounds t) × (cell < 2560) × (length bank.now ≡ 16384) }
    ensures { (result ≡ entry_at t bank.now cell) × (EntryBounds result) }
{
    let at = entry_address(t, cell);
    let low = fetch(bank, at);
    let high = high_of(t, bank, at);
    Entry { low, high }
}

pub fn tile_number(t: TileSetup, e: Entry) -> usize
    requires { EntryBounds e }
    ensures { (result ≡ tile_number t e) × (result < 512) }
{
    if t.ula {
        e.low
    } else {
        e.low + e.high % 2 * 256
    }
}
