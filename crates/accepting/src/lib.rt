// Whether a text is one that was saved, and of which state. The text's lines are read into a board and a table; it was saved of these where
// they hold a sound state whose text is the one handed in, to the last byte (specs/Accepting.antt). Assumes nothing.
#![tactic(auto)]

ghost use Rattle.std.specs.Prelude.{◌≡◌, length, replicate};
ghost use Rattle.saving.specs.sound.Sound.{Decides};
ghost use Rattle.accepting.specs.Accepting.{Finds, Cleared, Accepts};

use board::Board;
use read_back::reading;
pub use read_back::saved;
pub use saving;
pub use saving::{decoding, saved_lines, sizes, sound, waiting_list};

// Whether two texts are the same. Either form compares by it.
pub fn same(a: &[u8], b: &[u8]) -> bool
    ensures { Decides result (a.now ≡ b.now) }
{
    a == b
}

// The board that the text's lines were read to, where the text is what is saved of it.
// Kept beside `compare2` of the second form: a trait over both, its two impls and one function had 74 lines, where the two have 44.
fn compare(text: &[u8], table: &mut [u8]) -> Option<Board>
    requires { table.old ≡ replicate 1472 0 }
    ensures { Finds text.now result table.new }
{
    if !text.starts_with(b"D001\n") {
        return None;
    }
    let s = reading::read(text, 5, table);
    let b = Board {
        width: Board::FOUR,
        state: s,
    };
    if !sound::sound(b, table) {
        return None;
    }
    let mut page = [0u8; saving::LONGEST];
    let n = saving::spell(b, table, &mut page);
    if !same(text, &page[..n]) {
        return None;
    }
    Some(b)
}

// What was found, in either form. Where nothing was, the table is cleared.
pub fn or_cleared(found: Option<Board>, table: &mut [u8]) -> Option<Board>
    requires { length table.old ≡ 1472 }
    ensures { (result ≡ found) × Cleared found table.old table.new }
{
    if found.is_none() {
        table.fill(0);
    }
    found
}

// The board that a text of four channels holds, and its table. Where the text is none, the table is cleared.
pub fn accept(text: &[u8], table: &mut [u8]) -> Option<Board>
    requires { table.old ≡ replicate 1472 0 }
    ensures { Accepts text.now result table.new }
{
    let found = compare(text, table);
    or_cleared(found, table)
}
