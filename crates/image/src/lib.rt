// The state as 823 bytes that a caller keeps: tested (specs/Image.antt has the layout; `decoding` reads it, `encoding` writes it).
// Assumes nothing.
#![tactic(auto)]

ghost use Rattle.std.specs.Prelude.{◌≡◌, ◌+◌, ◌≤◌, length};
ghost use Rattle.image.specs.Image.{marks_at, all_marks, is_whole};

pub use board;
pub use board::store;

fn marked(bytes: &[u8], at: usize) -> bool
    requires { at + 70 ≤ length bytes.now }
    ensures { result ≡ marks_at bytes.now at }
{
    bytes[at + 3] < 2 && bytes[at + 4] < 2
}

fn all_marked(bytes: &[u8]) -> bool
    requires { 560 ≤ length bytes.now }
    ensures { result ≡ all_marks 8 bytes.now 0 }
{
    (0..8).all(|i| marked(bytes, i * 70))
}

// The length is right, and each mark is 0 or 1.
pub fn whole(bytes: &[u8]) -> bool
    ensures { result ≡ is_whole bytes.now }
{
    bytes.len() == 823 && all_marked(bytes)
}
