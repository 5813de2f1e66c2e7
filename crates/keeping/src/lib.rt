// What the log program keeps at its end, in the first form: the text of its state. Assumes nothing.
#![tactic(auto)]

ghost use Rattle.std.specs.Prelude.{◌≡◌, length};
ghost use Rattle.board.specs.Board.{Held};
ghost use Rattle.keeping.specs.Keeping.{Kept};

use board::Board;
pub use saving;
pub use saving::decoding;

// The text of four channels, in front of the page; how long it is. Eight have none: 0, and nothing is written.
// A length and no Option: no text has no bytes, so the log program saves what stands in front of the page in either case.
pub fn first_form(b: Board, table: &[u8], page: &mut [u8]) -> usize
    requires { Held b table.now × (length page.old ≡ 3344) }
    ensures { Kept b table.now page.old result page.new }
{
    if b.width != Board::FOUR {
        return 0;
    }
    saving::spell(b, table, page)
}
