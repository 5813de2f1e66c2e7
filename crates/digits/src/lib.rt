// The bytes that a line's upper-case hexadecimal digits spell. Assumes nothing.
#![tactic(auto)]

ghost use Rattle.std.specs.Prelude.{◌≡◌, true, ◌+◌, ◌*◌, ◌<◌, length, get_or, is_some, IfSome};
ghost use Rattle.machine.specs.Log.{digit as digit_m};
ghost use Rattle.digits.specs.Digits.{value_of, is_digit, spells, pairs};

pub use machine;

// The value of an upper-case hexadecimal digit, and of no other byte.
#[tactic(auto, unfolding(machine::specs::Log::digit))]
fn digit(b: u8) -> Option<u8>
    ensures found { is_some result ≡ is_digit b }
    ensures value { IfSome result (λ v. v ≡ value_of (digit_m b)) }
{
    match b {
        b'0'..=b'9' => Some(b - b'0'),
        b'A'..=b'F' => Some(b - b'A' + 10),
        _ => None,
    }
}

// Whether a line spells bytes: digits alone, and two to a byte.
pub fn spelt(line: &[u8]) -> bool
    ensures { result ≡ spells line.now }
{
    line.len() % 2 == 0 && line.iter().all(|b| digit(*b).is_some())
}

// The value of digit i of a line that spells bytes.
fn value_at(line: &[u8], i: usize) -> u8
    requires { (spells line.now ≡ true) × (i < length line.now) }
    ensures { (result ≡ value_of (digit_m (get_or line.now i 0))) × (result < 16) }
{
    digit(line[i]).unwrap()
}

// Byte i of those that a line spells.
pub fn byte_at(line: &[u8], i: usize) -> u8
    requires { (spells line.now ≡ true) × (i * 2 + 1 < length line.now) }
    ensures { result ≡ get_or (pairs line.now) i 0 }
{
    value_at(line, i * 2) * 16 + value_at(line, i * 2 + 1)
}
