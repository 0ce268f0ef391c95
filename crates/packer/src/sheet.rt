// A picture's cells packed, and the sheet written where it is accepted.
ghost use Rattle.std.specs.Prelude.{◌≡◌, ◌≤◌, ◌<◌, length};
ghost use Rattle.packer.specs.Bounds.{Counted, Written};

use lists::put;
use pack_entries::pack_cells;
use pack_parts::write_definitions;

// How many definitions a picture takes, or None where it takes more than allowed.
pub fn count(pic: &[u8], allowed: usize) -> Option<usize>
    requires { (length pic.now ≡ 40960) × (allowed ≤ 256) }
    ensures { Counted pic.now allowed result }
{
    let mut cells = [0usize; 256];
    let mut entries = [0u8; 2560];
    pack_cells(pic, 0, allowed, &mut cells, &mut entries)
}

// The same, and the map and the definitions are written unless there are too many.
pub fn write(
    pic: &[u8],
    allowed: usize,
    offset: usize,
    map: &mut [u8],
    defs: &mut [u8],
) -> Option<usize>
    requires { (length pic.now ≡ 40960) × (allowed ≤ 256) × (offset < 16) × (length map.old ≡ 2560) × (length defs.old ≡ 8192) }
    ensures { Written pic.now allowed offset map.old defs.old map.new defs.new result }
{
    let mut cells = [0usize; 256];
    let mut entries = [0u8; 2560];
    let n = pack_cells(pic, offset, allowed, &mut cells, &mut entries)?;
    put(map, 0, &entries);
    write_definitions(pic, &cells, n, defs);
    Some(n)
}
