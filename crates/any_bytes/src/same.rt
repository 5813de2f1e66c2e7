// Whether two boards, or two runs of bytes, are the same. Assumes nothing.
use image::board::Board;

// From `from` on, two slices have the same bytes.
pub fn bytes(a: &[u8], b: &[u8], from: usize) -> bool {
    a.len() == b.len() && a.iter().skip(from).eq(b.iter().skip(from))
}

// Two boards are the same where their bytes are.
pub fn states(s: Board, t: Board) -> bool {
    let mut a = [0u8; 823];
    let mut b = [0u8; 823];
    encoding::save(s, &mut a);
    encoding::save(t, &mut b);
    bytes(&a, &b, 0)
}
