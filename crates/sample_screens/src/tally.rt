// What is told of lent bytes: their sum, and whether they are all as they were.
use host::marks::untouched;
use line_sums::line_sum;

// The Adler-32 of bytes, an even number of them, at most 16,384, as two bytes a number, high first.
pub(crate) fn sum(bytes: &[u8]) -> u32 {
    let mut pairs = [0u16; 8192];
    for (pair, two) in pairs.iter_mut().zip(bytes.chunks_exact(2)) {
        *pair = u16::from_be_bytes([two[0], two[1]]);
    }
    let n = (bytes.len() / 2).min(8192);
    line_sum(&pairs[..n])
}

// Whether bytes that were all the mark are so still.
pub(crate) fn kept(bytes: &[u8]) -> &'static str {
    if untouched(bytes) {
        "untouched"
    } else {
        "changed"
    }
}
