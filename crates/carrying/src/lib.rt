// A log that goes on from a saved text: document 02, #106 and #112. What is written for it is the machine's run from the state that was saved, and
// what is saved behind it is the text of the state that the machine comes to: proofs/Carrying.antt. Assumes nothing.
#![tactic(auto)]

ghost use Rattle.std.specs.Prelude.{◌≡◌, T, length, replicate};
ghost use Rattle.board.specs.Board.{sized};
ghost use Rattle.carrying.specs.Carrying.{Resumes, Resumes2};

use accepting2::recounting;
pub use accepting2::{accepting, saving2};
pub use board;
use board::Board;
pub use board::store;
pub use whole_log;
pub use whole_log::{finishing, paging, taking};

// The board that a text holds, its table, and its display counted once. A text that was not saved leaves the display as it was.
pub fn resume(text: &[u8], table: &mut [u8], display: &mut [u8]) -> Option<Board>
    requires { (table.old ≡ replicate 1472 0) × (length display.old ≡ 18) }
    ensures { Resumes text.now display.old result table.new display.new }
{
    let Some(b) = accepting::accept(text, table) else {
        return None;
    };
    recounting::recount(b, table, display);
    Some(b)
}

// The same of a text of the second form, of a board with `width` channels.
pub fn resume2(width: u8, text: &[u8], table: &mut [u8], display: &mut [u8]) -> Option<Board>
    requires { (T (sized width)) × (table.old ≡ replicate 1472 0) × (length display.old ≡ 18) }
    ensures { Resumes2 width text.now display.old result table.new display.new }
{
    let Some(b) = accepting2::accept2(width, text, table) else {
        return None;
    };
    recounting::recount(b, table, display);
    Some(b)
}
