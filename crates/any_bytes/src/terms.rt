// The words of the input, and the bytes that they spell. Assumes nothing.
ghost use Rattle.std.specs.Prelude.{◌<◌, IfSome};

// Where a byte next stands, from a place on; the end where it does not.
pub fn find(text: &[u8], from: usize, b: u8) -> usize {
    for (i, x) in text.iter().enumerate().skip(from) {
        if *x == b {
            return i;
        }
    }
    text.len().max(from)
}

// The place behind a place, or the end.
pub fn after(text: &[u8], i: usize) -> usize {
    if i < text.len() { i + 1 } else { text.len() }
}

// What stands between two places; nothing where they are none.
pub fn part(text: &[u8], from: usize, to: usize) -> &[u8] {
    if from > to {
        return &text[..0];
    }
    if to > text.len() {
        return &text[..0];
    }
    &text[from..to]
}

// The byte at a place; 0 past the end.
pub fn at(text: &[u8], i: usize) -> u8 {
    if i < text.len() { text[i] } else { 0 }
}

// The value of a digit. `to_digit` would take small letters too.
fn digit(b: u8) -> Option<u8>
    ensures { IfSome result (λ d. d < 16) }
{
    match b {
        b'0'..=b'9' => Some(b - b'0'),
        b'A'..=b'F' => Some(b - b'A' + 10),
        _ => None,
    }
}

// The byte that two digits spell at a place.
fn spelt(text: &[u8], i: usize) -> Option<u8> {
    let high = digit(at(text, i))?;
    let low = digit(at(text, after(text, i)))?;
    Some(high * 16 + low)
}

// The bytes spelt from `from` on, put at the front of w, up to what is no digit; how many they are.
pub fn spell(text: &[u8], from: usize, w: &mut [u8]) -> usize {
    let mut i = from;
    for (k, b) in w.iter_mut().enumerate() {
        match spelt(text, i) {
            Some(x) => *b = x,
            None => return k,
        }
        i = after(text, after(text, i));
    }
    w.len()
}

// Two bytes, high first.
pub fn pair(high: u8, low: u8) -> u16 {
    u16::from_be_bytes([high, low])
}

// Three bytes, high first.
pub fn triple(high: u8, mid: u8, low: u8) -> usize {
    u32::from_be_bytes([0, high, mid, low]) as usize
}
