// The cells of a picture packed one after the other.
ghost use Rattle.std.specs.Prelude.{◌≡◌, ℕ, ◌+◌, ◌≤◌, ◌<◌, length, MatchOption};
ghost use Rattle.pack_rule.specs.Greedy.{def_cells};
ghost use Rattle.pack_entries.specs.Bounds.{PackedSoFar, Progress, Stepped};

use pack_cells::unpack;
use pack_parts::put_entry;
use pack_search::Table;

// Packs cell c, or gives None where there would be more definitions than allowed.
fn pack_cell(
    pic: &[u8],
    offset: usize,
    allowed: usize,
    cells: &mut [usize],
    table: &mut Table,
    map: &mut [u8],
    c: usize,
) -> Option<()>
    requires { (length pic.now ≡ 40960) × (offset < 16) × (allowed ≤ 256) × (table.old.count ≤ allowed) × (c < 1280) × (Progress pic.now offset cells.old table.old map.old c) }
    ensures { MatchOption result (allowed < length (def_cells pic.now (c + 1))) (λ _. (table.new.count ≤ allowed) × (Progress pic.now offset cells.new table.new map.new (c + 1))) }
{
    let mut cell = [0u8; 64];
    unpack(pic, c, &mut cell);
    if let Some(m) = table.locate(&cell) {
        put_entry(map, c, m.tile, offset, m.turn);
        return Some(());
    }
    let n = table.len();
    if allowed <= n {
        return None;
    }
    cells[n] = c;
    table.list(&cell);
    put_entry(map, c, n, offset, 0);
    Some(())
}

// Packs the cells in their order. How many definitions there are, or None where there would be more than allowed.
pub fn pack_cells(
    pic: &[u8],
    offset: usize,
    allowed: usize,
    cells: &mut [usize],
    map: &mut [u8],
) -> Option<usize>
    requires { (length pic.now ≡ 40960) × (offset < 16) × (allowed ≤ 256) × (length cells.old ≡ 256) × (length map.old ≡ 2560) }
    ensures { Stepped (λ (r : ℕ). PackedSoFar pic.now offset cells.new map.new r 1280) pic.now allowed 1280 result }
{
    let mut table = Table::new();
    for c in 0..1280 {
        pack_cell(pic, offset, allowed, cells, &mut table, map, c)?;
    }
    Some(table.len())
}
