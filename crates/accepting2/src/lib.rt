// Whether a text is one that was saved in the second form of a board with so many channels, and of which state. The text's lines behind
// the first two are read into a board and a table; it was saved of these where they hold a sound state whose text is the one handed in,
// to the last byte, the first two lines and the numbers among them (specs/Accepting2.antt). Assumes nothing.
#![tactic(auto)]

ghost use Rattle.std.specs.Prelude.{◌≡◌, T, replicate};
ghost use Rattle.board.specs.Board.{sized};
ghost use Rattle.accepting2.specs.Accepting2.{Finds2, Accepts2};

use board::Board;
pub use read_back2;
use read_back2::reading;
pub use read_back2::{hex_lines, number_lines, read_back, saved, saved2};
pub use saving2;
use saving2::sound;
pub use saving2::{accepting, recounting};

// The board that the text's lines behind the first two were read to, where the text is what is saved of it.
// Kept beside `compare` of the first form: a trait over both, its two impls and one function had 74 lines, where the two have 44.
fn compare2(width: u8, text: &[u8], table: &mut [u8]) -> Option<Board>
    requires { T (sized width) × (table.old ≡ replicate 1472 0) }
    ensures { Finds2 width text.now result table.new }
{
    if text.len() < 10 {
        return None;
    }
    if !text.starts_with(b"D002\n") {
        return None;
    }
    let s = reading::read(text, 10, table);
    let b = Board { width, state: s };
    if !sound::sound(b, table) {
        return None;
    }
    let mut page = [0u8; saving2::LONGEST];
    let n = saving2::spell2(b, table, &mut page);
    if !accepting::same(text, &page[..n]) {
        return None;
    }
    Some(b)
}

// The board that a text of `width` channels holds, and its table. Where the text is none, the table is cleared.
pub fn accept2(width: u8, text: &[u8], table: &mut [u8]) -> Option<Board>
    requires { T (sized width) × (table.old ≡ replicate 1472 0) }
    ensures { Accepts2 width text.now result table.new }
{
    let found = compare2(width, text, table);
    accepting::or_cleared(found, table)
}
