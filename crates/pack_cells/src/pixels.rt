// The pixels of a picture's cells.
ghost use Rattle.std.specs.Prelude.{◌≡◌, ℕ, ◌*◌, ◌/◌, ◌<◌, length, get_or};
ghost use Rattle.lists.specs.Tab.{tab};
ghost use Rattle.tilemap_turns.specs.Turns.{half_of};
ghost use Rattle.pack_classes.specs.Picture.{cell_byte, cell_pixels};

// The 32 bytes of a cell, four from each of eight lines: side by side they become pixels many at a time.
pub fn cell_bytes(pic: &[u8], c: usize, out: &mut [u8])
    requires { (length pic.now ≡ 40960) × (c < 1280) × (length out.old ≡ 32) }
    ensures { out.new ≡ tab (cell_byte pic.now c) 32 }
{
    let at = c / 40 * 1280 + c % 40 * 4;
    for y in 0..8 {
        let a = at + y * 160;
        let o = y * 4;
        out[o] = pic[a];
        out[o + 1] = pic[a + 1];
        out[o + 2] = pic[a + 2];
        out[o + 3] = pic[a + 3];
    }
}

// The two pixels of each byte, high half left.
fn halves(bytes: &[u8], out: &mut [u8])
    requires { (length bytes.now < 40960) × (length out.old ≡ length bytes.now * 2) }
    ensures { out.new ≡ tab (λ (i : ℕ). half_of i (get_or bytes.now (i / 2) 0)) (length bytes.now * 2) }
{
    for i in 0..bytes.len() {
        let b = bytes[i];
        out[i * 2] = b / 16;
        out[i * 2 + 1] = b % 16;
    }
}

// The 64 pixels of a cell.
pub fn unpack(pic: &[u8], c: usize, out: &mut [u8])
    requires { (length pic.now ≡ 40960) × (c < 1280) × (length out.old ≡ 64) }
    ensures { out.new ≡ cell_pixels pic.now c }
{
    let mut bytes = [0u8; 32];
    cell_bytes(pic, c, &mut bytes);
    halves(&bytes, out);
}
