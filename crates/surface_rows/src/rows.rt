// Rows of dots: filled with one, and cut to a clip.
ghost use Rattle.std.specs.Prelude.{◌≡◌, ℕ, ◌/◌, ◌≤◌, length, get_or};
ghost use Rattle.lists.specs.Tab.{tab};
ghost use Rattle.surface.specs.Dots.{clipped};
ghost use Rattle.surface_rows.specs.Rows.{first_dot, past_dot};

pub fn paint(v: u16, out: &mut [u16])
    ensures { out.new ≡ tab (λ (k : ℕ). v) (length out.old) }
{
    out.fill(v);
}

// The first dot of pixel x in a row of n dots, or the row's end.
fn first_dot(n: usize, x: usize) -> usize
    ensures { (result ≡ first_dot n x) × (result ≤ n) }
{
    if x <= n / 2 { x * 2 } else { n }
}

// The dot after pixel x, or the row's end.
fn past_dot(n: usize, x: usize) -> usize
    ensures { (result ≡ past_dot n x) × (result ≤ n) }
{
    if x < n / 2 { x * 2 + 2 } else { n }
}

// What lies left of the clip and right of it becomes transparent.
pub fn clip_dots(left: usize, right: usize, out: &mut [u16])
    ensures { out.new ≡ tab (λ (d : ℕ). clipped (d / 2) left right (get_or out.old d 0)) (length out.old) }
{
    let n = out.len();
    let start = 0;
    let first = first_dot(n, left);
    paint(512, &mut out[start..first]);
    let past = past_dot(n, right);
    paint(512, &mut out[past..n]);
}
