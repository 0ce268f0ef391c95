// The index at a position of the surface: entry, tile number, turn, pixel.
ghost use Rattle.std.specs.Prelude.{◌≡◌, ◌<◌, length};
ghost use Rattle.tilemap_entries.specs.Bounds.{SetupBounds, EntryBounds};
ghost use Rattle.tilemap_rule.specs.Index.{pixel_at, entry_pixel, tile_index};

use tilemap_entries::{Entry, TileSetup, cell_of, down_map, entry_at, fetch, tile_number, wrapped};
use tilemap_turns::{Spot, half, turned};

// A pixel of the definition at an address.
pub fn pixel_at(bank: &[u8], at: usize, s: Spot) -> usize
    requires { (length bank.now ≡ 16384) × (at < 32768) × (s.column < 8) × (s.row < 8) }
    ensures { (result ≡ pixel_at bank.now at s.column s.row) × (result < 16) }
{
    half(s.column, fetch(bank, at + s.row * 4 + s.column / 2))
}

// The pixel that an entry shows at (x, y) of its cell.
pub fn entry_pixel(t: TileSetup, bank: &[u8], e: Entry, x: usize, y: usize) -> usize
    requires { (SetupBounds t) × (EntryBounds e) × (length bank.now ≡ 16384) × (x < 8) × (y < 8) }
    ensures { (result ≡ entry_pixel t bank.now e x y) × (result < 16) }
{
    let at = t.definitions + tile_number(t, e) * 32;
    pixel_at(bank, at, turned(e.high / 2 % 8, x, y))
}

// The index at (x, y) of the surface, before transparency and clip.
pub fn index_at(t: TileSetup, bank: &[u8], x: usize, y: usize) -> usize
    requires { (SetupBounds t) × (length bank.now ≡ 16384) × (x < 640) × (y < 256) }
    ensures { (result ≡ tile_index t bank.now x y) × (result < 256) }
{
    let tx = wrapped(t.columns80, x + t.x);
    let ty = down_map(t, y);
    let e = entry_at(t, bank, cell_of(t.columns80, tx, ty));
    e.high / 16 * 16 + entry_pixel(t, bank, e, tx % 8, ty % 8)
}
