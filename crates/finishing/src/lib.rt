// The end of a log: the output of what stands of a last line, on a lent page. The state is known to be sound, and stands in lent
// bytes. Assumes nothing.
#![tactic(auto)]

ghost use Rattle.std.specs.Prelude.{◌≤◌};
ghost use Rattle.image.specs.board.Board.{Held};
ghost use Rattle.one_line.specs.gathering.Lumps.{LINE};
ghost use Rattle.image.specs.Image.{state_of, Whole};
ghost use Rattle.one_line.specs.taking.Desk.{taken_in};
ghost use Rattle.finishing.specs.Finishing.{Finishes};

use one_line::taking::{Left, Show};
use one_line::{putting, taking};

// The log has ended: what stands of a last line is answered as a line, where the page has room. Where nothing stands, nothing
// is written.
pub fn finish(
    show: Show,
    state: &mut [u8],
    line: &[u8; audio::LINE_SIZE],
    n: usize,
    table: &mut [u8],
    display: &mut [u8; audio::DISPLAY_SIZE],
    page: &mut [u8],
    at: usize,
) -> Left
    requires { Whole state.old × Held (state_of state.old) table.old × (n ≤ LINE) }
    ensures { Whole state.new
        × Finishes show (state_of state.old) table.old display.old line.now n
        page.old at
        (taken_in state.new result) table.new display.new page.new }
{
    if !one_line::room(show, page, at) {
        return Left {
            line: n,
            used: 0,
            at,
        };
    }
    let mut out = [0u8; audio::ROOM_SIZE];
    let last = taking::take_end(state, line, n, table, display, &mut out);
    putting::put(show, state, last, table, display, &out, page, at)
}
