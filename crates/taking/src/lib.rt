// A log taken a fragment at a time, of any length: what stands of a line is kept in lent bytes, and a call answers one line at
// most. The state is known to be sound, and stands in lent bytes too. Assumes nothing.
#![tactic(auto)]

ghost use Rattle.std.specs.Prelude.{◌≤◌, length, take};
ghost use Rattle.image.specs.board.Board.{Held};
ghost use Rattle.image.specs.Image.{state_of, Whole};
ghost use Rattle.serving.specs.Serving.{Feeds, FeedsDisplay};
ghost use Rattle.gathering.specs.Lumps.{LINE};
ghost use Rattle.taking.specs.Desk.{taken_in, Takes, Ends};

pub use channel_lines;
pub use serving;
pub use serving::lines;

// What is told behind each line's answer: the board's channels, the wall display.
#[derive(Clone, Copy)]
pub struct Show {
    pub channels: bool,
    pub display: bool,
}

// What a call leaves beside the lent bytes: how much stands of a line that has not ended, how much of the fragment is used, and how much
// output stands.
#[derive(Clone, Copy)]
pub struct Left {
    pub line: usize,
    pub used: usize,
    pub at: usize,
}

// The first n bytes of the line, fed.
fn answer(
    state: &mut [u8],
    line: &[u8],
    n: usize,
    table: &mut [u8],
    display: &mut [u8; audio::DISPLAY_SIZE],
    out: &mut [u8; audio::ROOM_SIZE],
) -> usize
    requires { Whole state.old × Held (state_of state.old) table.old × (n ≤ length line.now) }
    ensures { Whole state.new
        × Feeds (state_of state.old) table.old (take n line.now) out.old
        (record { state = state_of state.new; n = result }) table.new out.new
        × FeedsDisplay (state_of state.old) table.old (take n line.now) display.old
        display.new }
{
    serving::feed_sound(state, &line[..n], table, display, out)
}

// The fragment up to its first LF, or all of it. Where the line has ended it is answered.
pub fn take(
    state: &mut [u8],
    line: &mut [u8; audio::LINE_SIZE],
    n: usize,
    fragment: &[u8],
    table: &mut [u8],
    display: &mut [u8; audio::DISPLAY_SIZE],
    out: &mut [u8; audio::ROOM_SIZE],
) -> Left
    requires { Whole state.old × Held (state_of state.old) table.old × (n ≤ LINE) }
    ensures { Whole state.new
        × Takes (state_of state.old) table.old display.old line.old n fragment.now
        out.old
        (taken_in state.new result) line.new table.new display.new out.new }
{
    let g = gathering::gather(line, n, fragment);
    let k = g.n;
    let used = g.used;
    if !g.ended {
        return Left {
            line: k,
            used,
            at: 0,
        };
    }
    let m = answer(state, line, k, table, display, out);
    Left {
        line: 0,
        used,
        at: m,
    }
}

// The log has ended: what stands of a last line is answered as a line, and where nothing stands nothing is written.
pub fn take_end(
    state: &mut [u8],
    line: &[u8; audio::LINE_SIZE],
    n: usize,
    table: &mut [u8],
    display: &mut [u8; audio::DISPLAY_SIZE],
    out: &mut [u8; audio::ROOM_SIZE],
) -> Left
    requires { Whole state.old × Held (state_of state.old) table.old × (n ≤ LINE) }
    ensures { Whole state.new
        × Ends (state_of state.old) table.old display.old line.now n out.old
        (taken_in state.new result) table.new display.new out.new }
{
    if n == 0 {
        return Left {
            line: 0,
            used: 0,
            at: 0,
        };
    }
    let last = answer(state, line, n, table, display, out);
    Left {
        line: 0,
        used: 0,
        at: last,
    }
}
