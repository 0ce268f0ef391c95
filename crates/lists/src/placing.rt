// Bytes put into a lent buffer, and a buffer made all 0. By places and not by `copy_from_slice` and `fill`: tried, and C's archive then asked
// for memmove from outside, and no edit of one number left the first byte out.
ghost use Rattle.std.specs.Prelude.{◌≡◌, ℕ, ◌+◌, ◌≤◌, length};
ghost use Rattle.lists.specs.Placed.{placed};
ghost use Rattle.lists.specs.Tab.{tab};

// Puts `src` into `target` from a place on. The caller sees that it fits.
pub fn put(target: &mut [u8], at: usize, src: &[u8])
    requires { at + length src.now ≤ length target.old }
    ensures { target.new ≡ placed target.old at src.now }
{
    for i in 0..src.len() {
        target[at + i] = src[i];
    }
}

// Makes every byte 0.
pub fn zero(out: &mut [u8])
    ensures { out.new ≡ tab (λ (i : ℕ). 0) (length out.old) }
{
    for i in 0..out.len() {
        out[i] = 0;
    }
}
