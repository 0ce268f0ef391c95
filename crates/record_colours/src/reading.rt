// A palette read and judged where it stands.
ghost use Rattle.std.specs.Prelude.{◌≡◌, ◌+◌, ◌*◌, ◌≤◌, ◌<◌, length, slice_index, IfSome, IsNone};
ghost use Rattle.register_bounds.specs.Bounds.{colour_fits};
ghost use Rattle.state.specs.Lawful.{all_colours};
ghost use Rattle.record_layout.specs.Fields.{pair, row_at};
ghost use Rattle.record_layout.specs.Parts.{first_bad_row};
ghost use Rattle.record_colours.specs.LowFirst.{AllLowFirst, EachHighFits};

// The 256 pairs of bytes from a place on as numbers, the first byte low: so a pair is read as it lies in memory, many at once.
fn pairs_at(b: &[u8], at: usize) -> [u16; 256]
    requires { at + 512 ≤ length b.now }
    ensures { AllLowFirst b.now at result 256 }
{
    let mut pairs = [0u16; 256];
    for i in 0..256 {
        let o = at + 2 * i;
        pairs[i] = u16::from_le_bytes([b[o], b[o + 1]]);
    }
    pairs
}

// The palette at a place: its pairs, each with its bytes exchanged.
pub fn colours_at(b: &[u8], at: usize) -> [u16; 256]
    requires { at + 512 ≤ length b.now }
    ensures { result ≡ row_at pair 256 b.now at }
{
    let mut colours = pairs_at(b, at);
    for colour in colours.iter_mut() {
        let v = *colour;
        *colour = v % 256 * 256 + v / 256;
    }
    colours
}

// Every colour of the palette at a place is at most 511, which its high byte tells. There is no early exit, so that the
// loop can be vectorised.
pub fn is_palette(b: &[u8], at: usize) -> bool
    requires { at + 512 ≤ length b.now }
    ensures { result ≡ all_colours (row_at pair 256 b.now at) }
{
    let pairs = pairs_at(b, at);
    let mut ok = true;
    for pair in pairs.iter() {
        ok = ok & (*pair % 256 <= 1);
    }
    ok
}

// The first of the bytes at even places that is above 1.
fn first_above_one(b: &[u8]) -> Option<usize>
    requires { length b.now ≡ 512 }
    ensures none { IsNone result → EachHighFits b.now 256 }
    ensures inside { IfSome result (λ i. i < 256) }
    ensures here { IfSome result (λ i. 1 < slice_index b.now (i * 2)) }
    ensures before { IfSome result (λ i. EachHighFits b.now i) }
{
    b.iter().step_by(2).position(|high| *high > 1)
}

// The place of the first colour of the palette at a place that is above 511: that of its high byte, which tells it. `next` where none is.
pub fn bad_colour(b: &[u8], at: usize, next: usize) -> usize
    requires { at + 512 ≤ length b.now }
    ensures { result ≡ first_bad_row pair 256 colour_fits b.now at next }
{
    match first_above_one(&b[at..at + 512]) {
        Some(i) => at + 2 * i,
        None => next,
    }
}
