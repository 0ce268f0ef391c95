// Writing the definitions of an accepted packing.
ghost use Rattle.std.specs.Prelude.{◌≡◌, ℕ, ◌+◌, ◌*◌, ◌≤◌, ◌<◌, length, get_or};
ghost use Rattle.lists.specs.Tab.{tab};
ghost use Rattle.pack_rule.specs.Greedy.{def_cells, tile_count, def_byte, packed_defs};

use lists::zero;
use pack_cells::cell_bytes;

// Definition d: the bytes of its cell, one of the n listed, or 0 where it is not used.
fn write_definition(pic: &[u8], cells: &[usize], n: usize, d: usize, out: &mut [u8])
    requires { (length pic.now ≡ 40960) × (length cells.now ≡ 256) × (n ≤ 256) × (n ≡ tile_count pic.now) × ((k : ℕ) → k < n → get_or cells.now k 0 ≡ get_or (def_cells pic.now 1280) k 0) × (length out.old ≡ 32) }
    ensures { out.new ≡ tab (λ (k : ℕ). def_byte pic.now (d * 32 + k)) 32 }
{
    if d < n {
        let c = cells[d];
        cell_bytes(pic, c, out);
    } else {
        zero(out);
    }
}

pub fn write_definitions(pic: &[u8], cells: &[usize], n: usize, defs: &mut [u8])
    requires { (length pic.now ≡ 40960) × (length cells.now ≡ 256) × (n ≤ 256) × (n ≡ tile_count pic.now) × ((k : ℕ) → k < n → get_or cells.now k 0 ≡ get_or (def_cells pic.now 1280) k 0) × (length defs.old ≡ 8192) }
    ensures { defs.new ≡ packed_defs pic.now }
{
    for d in 0..256 {
        let a = d * 32;
        let e = a + 32;
        write_definition(pic, cells, n, d, &mut defs[a..e]);
    }
}
