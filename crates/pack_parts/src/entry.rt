// Writing an entry of the map.
ghost use Rattle.std.specs.Prelude.{◌≡◌, ◌+◌, ◌*◌, ◌<◌, length, set};

// The entry of cell c, low byte first: its tile, and then the palette offset and the turn, with bit 8 clear.
pub fn put_entry(map: &mut [u8], c: usize, tile: usize, offset: usize, turn: usize)
    requires { (length map.old ≡ 2560) × (c < 1280) × (tile < 256) × (offset < 16) × (turn < 8) }
    ensures { map.new ≡ set (set map.old (c * 2) tile) (c * 2 + 1) (offset * 16 + turn * 2) }
{
    let high = offset * 16 + turn * 2;
    map[c * 2] = tile as u8;
    map[c * 2 + 1] = high as u8;
}
