// What the log program begins with: a fresh board, or what a saved text on descriptor 3 holds. It reads, and calls `carrying`: what is read
// is the C library's to say. Assumes nothing.
#![tactic(auto)]

ghost use Rattle.std.specs.Prelude.{◌≡◌, T, replicate};
ghost use Rattle.display.specs.Display.{blank};
ghost use Rattle.carrying.specs.board.Board.{sized};
ghost use Rattle.beginning.specs.Beginning.{Begins};

use carrying::board::Board;
pub use carrying::{accepting, finishing, paging, saving2, taking, whole_log};

// The descriptor that ./arbiter-log opens, where it has the file.
const LOADED: i32 = 3;

// A byte more than the longest text has, which is enough to see that a text is none.
const MOST: usize = 3522;

// What the program begins with: a fresh board of w channels; or the board of the loaded text, its table and its display. A text of the
// second form is one of w channels.
pub fn begin(load: bool, second: bool, w: u8, table: &mut [u8], display: &mut [u8]) -> Option<Board>
    requires { (T (sized w)) × (table.old ≡ replicate 1472 0) × (display.old ≡ blank) }
    ensures { Begins load second w result table.new display.new }
{
    if !load {
        return Some(Board::fresh(w));
    }
    let mut text = [0u8; MOST];
    let n = io::read_full(LOADED, &mut text);
    if second {
        return carrying::resume2(w, &text[..n], table, display);
    }
    carrying::resume(&text[..n], table, display)
}
