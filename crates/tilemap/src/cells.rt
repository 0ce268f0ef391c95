// The row of a line: the shades of its cells.
ghost use Rattle.std.specs.Prelude.{◌≡◌, ◌++◌, ℕ, ◌+◌, ◌*◌, ◌/◌, ◌%◌, ◌≤◌, ◌<◌, length, drop};
ghost use Rattle.lists.specs.Tab.{tab};
ghost use Rattle.state_bits.specs.Bits.{columns_of, width_of};
ghost use Rattle.tilemap_rule.specs.Index.{entry_pixel};
ghost use Rattle.tilemap.specs.Shades.{shade_from, shade_of, shade_at, row_length, tile_row};
ghost use Rattle.tilemap_entries.specs.Bounds.{SetupBounds, EntryBounds};
ghost use Rattle.tilemap.specs.Bounds.{ShadeBounds};

use surface::LineNumber;
use tilemap_entries::{Entry, TileSetup, cell_of, down_map, entry_at, tile_number, wrapped};
use tilemap_rule::pixel_at;
use tilemap_turns::{Spot, mirror};

fn shade_from(shades: &[u16; 256], offset: usize, mark: u16, pixel: usize) -> u16
    requires { (ShadeBounds shades.now) × (offset ≤ 240) × (mark ≤ 1024) × (pixel < 16) }
    ensures { result ≡ shade_from shades.now offset mark pixel }
{
    let i = offset + pixel;
    shades[i] + mark
}

// The eight shades of a cell whose pixels the closure reads, for the places 0 to 7. The closure is compiled into each use, so that each of
// these loops reads at fixed steps.
fn eight_shades<F: Fn(usize) -> usize>(
    pixel: F,
    shades: &[u16; 256],
    offset: usize,
    mark: u16,
    out: &mut [u16],
)
    requires { ((k : ℕ) → k < 8 → F.pre pixel k) × ((k p : ℕ) → k < 8 → F.post pixel k p → p < 16)
        × (ShadeBounds shades.now) × (offset ≤ 240) × (mark ≤ 1024) × (length out.old ≡ 8) }
    ensures { (f : ℕ → ℕ) → ((k p : ℕ) → k < 8 → F.post pixel k p → p ≡ f k)
        → out.new ≡ tab (λ (k : ℕ). shade_from shades.now offset mark (f k)) 8 }
{
    for (k, shade) in out.iter_mut().enumerate() {
        *shade = shade_from(shades, offset, mark, pixel(k));
    }
}

// The eight shades that an entry shows in row y of its cell. Its turn, offset and mark are worked out here, once for all eight.
fn entry_shades(t: TileSetup, shades: &[u16; 256], bank: &[u8], e: Entry, y: usize, out: &mut [u16])
    requires { (SetupBounds t) × (ShadeBounds shades.now) × (EntryBounds e) × (y < 8) × (length bank.now ≡ 16384) × (length out.old ≡ 8) }
    ensures { out.new ≡ tab (λ (k : ℕ). shade_of shades.now e.high (entry_pixel t bank.now e k y)) 8 }
{
    let at = t.definitions + tile_number(t, e) * 32;
    let turn = e.high / 2 % 8;
    let b = mirror(turn / 2 % 2 == 1, y);
    let back = turn / 4 % 2 != turn % 2;
    let offset = e.high / 16 * 16;
    let mark = (e.high % 2 * 1024) as u16;
    // A rotated entry shows a column of its definition, any other a row, read back where mirrored.
    if turn % 2 == 1 {
        let column = move |k| {
            pixel_at(
                bank,
                at,
                Spot {
                    column: b,
                    row: mirror(back, k),
                },
            )
        };
        eight_shades(column, shades, offset, mark, out);
    } else {
        let row = move |k| {
            pixel_at(
                bank,
                at,
                Spot {
                    column: mirror(back, k),
                    row: b,
                },
            )
        };
        eight_shades(row, shades, offset, mark, out);
    }
}

// The shades of the cell that starts at j of a line's row.
fn cell_shades(t: TileSetup, shades: &[u16; 256], bank: &[u8], j: usize, ty: usize, out: &mut [u16])
    requires { (SetupBounds t) × (ShadeBounds shades.now) × (j < 648) × (j % 8 ≡ 0) × (ty < 256) × (length bank.now ≡ 16384) × (length out.old ≡ 8) }
    ensures { out.new ≡ tab (λ (k : ℕ). shade_at t shades.now bank.now ((t.x / 8 * 8 + (j + k)) % width_of t.columns80) ty) 8 }
{
    let tx = wrapped(t.columns80, t.x / 8 * 8 + j);
    let e = entry_at(t, bank, cell_of(t.columns80, tx, ty));
    entry_shades(t, shades, bank, e, ty % 8, out);
}

// A line that starts within a cell reaches into one cell more than it has columns.
fn cells_of(columns80: bool) -> usize
    ensures { (result ≡ columns_of columns80 + 1) × (result ≤ 81) }
{
    if columns80 { 81 } else { 41 }
}

// The shades of a line's cells, one cell more than its columns; what lies after them stays. The shade at x stands at
// X offset mod 8 + x.
pub fn tile_row(t: TileSetup, shades: &[u16; 256], bank: &[u8], l: LineNumber, out: &mut [u16])
    requires { (SetupBounds t) × (ShadeBounds shades.now) × (l.0 < 256) × (length bank.now ≡ 16384) × (length out.old ≡ 648) }
    ensures { out.new ≡ tile_row t shades.now bank.now l.0 ++ drop (row_length t) out.old }
{
    let ty = down_map(t, l.0);
    let cells = cells_of(t.columns80);
    // By ranges and not by `chunks_exact_mut`: tried, and the proof did not close, since of what is written to a lent chunk only the length is
    // known.
    for i in 0..cells {
        let j = i * 8;
        cell_shades(t, shades, bank, j, ty, &mut out[j..j + 8]);
    }
}
