// The output of a log on a lent page: a lump of input is taken as far as the page has room, and the caller writes the page and
// comes back with the rest. The state is known to be sound, and stands in lent bytes. Assumes nothing.
#![tactic(auto)]

ghost use Rattle.std.specs.Prelude.{◌≤◌};
ghost use Rattle.image.specs.board.Board.{Held};
ghost use Rattle.one_line.specs.gathering.Lumps.{LINE};
ghost use Rattle.image.specs.Image.{state_of, Whole};
ghost use Rattle.one_line.specs.taking.Desk.{taken_in};
ghost use Rattle.paging.specs.Paging.{Fills};

use one_line::taking::{Left, Show};
pub use one_line::{channel_lines, display_lines, serving, taking};

// A lump, as far as the page has room for one more line's output.
pub fn fill(
    show: Show,
    state: &mut [u8],
    line: &mut [u8; audio::LINE_SIZE],
    started: usize,
    input: &[u8],
    table: &mut [u8],
    display: &mut [u8; audio::DISPLAY_SIZE],
    page: &mut [u8],
    stands: usize,
) -> Left
    requires { Whole state.old × Held (state_of state.old) table.old × (started ≤ LINE) }
    ensures { Whole state.new
        × Fills show (state_of state.old) table.old display.old line.old started
        input.now page.old stands
        (taken_in state.new result) line.new table.new display.new page.new }
{
    let mut n = started;
    let mut at = stands;
    // Counted by hand: a turn uses as many bytes as it takes, and the caller is told how many are used.
    let mut from: usize = 0;
    while from < input.len() {
        if !one_line::room(show, page, at) {
            return Left {
                line: n,
                used: from,
                at: at,
            };
        }
        let t = one_line::turn(
            show,
            state,
            line,
            n,
            &input[from..],
            table,
            display,
            page,
            at,
        );
        n = t.line;
        at = t.at;
        from += t.used;
    }
    Left {
        line: n,
        used: from,
        at,
    }
}
