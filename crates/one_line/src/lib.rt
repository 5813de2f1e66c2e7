// One line of a log at most, its output on a lent page that has room for it. The state is known to be sound, and stands in lent
// bytes. Assumes nothing.
#![tactic(auto)]

ghost use Rattle.std.specs.Prelude.{◌+◌, ◌≤◌, ◌≡◌, leb, length};
ghost use Rattle.image.specs.board.Board.{Held};
ghost use Rattle.putting.specs.gathering.Lumps.{LINE};
ghost use Rattle.image.specs.Image.{state_of, Whole};
ghost use Rattle.putting.specs.taking.Desk.{taken_in, needed};
ghost use Rattle.one_line.specs.OneLine.{Turns};

pub use putting;
use putting::taking::{Left, Show};
pub use putting::{channel_lines, display_lines, gathering, serving, taking};

// The room that the output of one line may take: 64 replies and an answer, and what is shown.
fn need(show: Show) -> usize
    ensures { result ≡ needed show }
{
    if show.channels {
        if show.display { 1836 } else { 1093 }
    } else {
        if show.display { 1716 } else { 973 }
    }
}

// Whether the output of one line has room, with what is shown.
pub fn room(show: Show, page: &[u8], at: usize) -> bool
    ensures { result ≡ leb (at + needed show) (length page.now) }
{
    let n = need(show);
    if at > page.len() {
        return false;
    }
    page.len() - at >= n
}

// One line at most, its output on the page.
pub fn turn(
    show: Show,
    state: &mut [u8],
    line: &mut [u8; audio::LINE_SIZE],
    n: usize,
    input: &[u8],
    table: &mut [u8],
    display: &mut [u8; audio::DISPLAY_SIZE],
    page: &mut [u8],
    at: usize,
) -> Left
    requires { Whole state.old × Held (state_of state.old) table.old × (n ≤ LINE)
        × (at + needed show ≤ length page.old) }
    ensures { Whole state.new
        × Turns show (state_of state.old) table.old display.old line.old n
        input.now page.old at
        (taken_in state.new result) line.new table.new display.new page.new }
{
    let mut out = [0u8; audio::ROOM_SIZE];
    let t = taking::take(state, line, n, input, table, display, &mut out);
    putting::put(show, state, t, table, display, &out, page, at)
}
