// The tile dots of a line over and under its ULA dots.
ghost use Rattle.std.specs.Prelude.{◌≡◌, ℕ, ◌+◌, ◌/◌, ◌<◌, length, get_or};
ghost use Rattle.lists.specs.Tab.{tab};
ghost use Rattle.surface.specs.Dots.{clipped};
ghost use Rattle.tilemap.specs.Dots.{across_of};
ghost use Rattle.line_dots.specs.Shades.{shade_over};

use line_dots::composed_dot;

// In 80 columns a shade is a dot; a row starts skew shades before the line.
fn single_dots(row: &[u16], skew: usize, dots: &mut [u16])
    requires { (length row.now ≡ 648) × (skew < 8) × (length dots.old ≡ 640) }
    ensures { dots.new ≡ tab (λ (k : ℕ). get_or row.now (skew + k) 0) 640 }
{
    dots.copy_from_slice(&row[skew..skew + 640]);
}

// In 40 columns a shade is two dots. By places and not by `chunks_exact_mut`: tried, and the proof did not close, since of what is
// written to a lent chunk only the length is known.
fn double_dots(row: &[u16], skew: usize, dots: &mut [u16])
    requires { (length row.now ≡ 648) × (skew < 8) × (length dots.old ≡ 640) }
    ensures { dots.new ≡ tab (λ (k : ℕ). get_or row.now (skew + k / 2) 0) 640 }
{
    for (x, &v) in row[skew..skew + 320].iter().enumerate() {
        dots[x * 2] = v;
        dots[x * 2 + 1] = v;
    }
}

// The shades of a line's dots.
fn row_dots(row: &[u16], columns80: bool, skew: usize, dots: &mut [u16])
    requires { (length row.now ≡ 648) × (skew < 8) × (length dots.old ≡ 640) }
    ensures { dots.new ≡ tab (λ (k : ℕ). get_or row.now (skew + across_of columns80 k) 0) 640 }
{
    if columns80 {
        single_dots(row, skew, dots);
    } else {
        double_dots(row, skew, dots);
    }
}

// The ULA's dots in out with tile dots of these shades; many dots are composed at once.
fn compose_dots(stencil: bool, dots: &[u16], out: &mut [u16])
    requires { (length dots.now ≡ 640) × (length out.old ≡ 640) }
    ensures { out.new ≡ tab (λ (k : ℕ). shade_over stencil (get_or out.old k 0) (get_or dots.now k 0)) 640 }
{
    for (k, dot) in out.iter_mut().enumerate() {
        *dot = composed_dot(stencil, *dot, dots[k]);
    }
}

// The ULA's dots in out become composed dots.
pub fn compose_row(
    stencil: bool,
    row: &[u16],
    columns80: bool,
    skew: usize,
    left: usize,
    right: usize,
    out: &mut [u16],
)
    requires { (length row.now ≡ 648) × (skew < 8) × (length out.old ≡ 640) }
    ensures { out.new ≡ tab (λ (k : ℕ). shade_over stencil (get_or out.old k 0) (clipped (k / 2) left right (get_or row.now (skew + across_of columns80 k) 0))) 640 }
{
    let mut dots = [0u16; 640];
    row_dots(row, columns80, skew, &mut dots);
    surface_rows::clip_dots(left, right, &mut dots);
    compose_dots(stencil, &dots, out);
}
