// One line of a log on bytes that hold a state known to be sound, as the log program's is: read, served, and told in lines of output.
// Assumes nothing.
#![tactic(auto)]

ghost use Rattle.std.specs.Prelude.{◌≤◌, length, take};
ghost use Rattle.image.specs.board.Board.{Held};
ghost use Rattle.image.specs.Image.{state_of, Whole};
ghost use Rattle.arbiter.specs.Arbiter.{outcome_in, Handled, Shown};
ghost use Rattle.serving.specs.Serving.{Feeds, FeedsDisplay};

pub use arbiter;
use arbiter::Answered;
pub use arbiter::{decoding, refusing, sound};
pub use unheard;
use unheard::frames;
use unheard::frames::Frame;
pub use unheard::lines;

fn serve(
    f: Frame,
    state: &mut [u8],
    combos: &[u8],
    table: &mut [u8],
    display: &mut [u8; audio::DISPLAY_SIZE],
    replies: &mut [u8],
) -> Answered
    requires { Whole state.old × Held (state_of state.old) table.old × (f.n ≤ length combos.now) }
    ensures { Whole state.new
        × Handled f.op f.request (state_of state.old) (take f.n combos.now) table.old
        replies.old (outcome_in state.new result) table.new replies.new
        × Shown f.op f.request (state_of state.old) (take f.n combos.now) table.old
        replies.old display.old display.new }
{
    let op = f.op;
    let r = f.request;
    let k = f.n;
    arbiter::handle(op, r, state, &combos[..k], table, display, replies)
}

// How many bytes of output there are.
pub fn feed_sound(
    state: &mut [u8],
    line: &[u8],
    table: &mut [u8],
    display: &mut [u8; audio::DISPLAY_SIZE],
    out: &mut [u8; audio::ROOM_SIZE],
) -> usize
    requires { Whole state.old × Held (state_of state.old) table.old }
    ensures { Whole state.new
        × Feeds (state_of state.old) table.old line.now out.old
        (record { state = state_of state.new; n = result }) table.new out.new
        × FeedsDisplay (state_of state.old) table.old line.now display.old
        display.new }
{
    let mut combos = [0u8; audio::LIST_SIZE];
    let Some(f) = frames::read(line, &mut combos) else {
        return unheard::malformed(out);
    };
    let mut replies = [0u8; audio::REPLIES_SIZE];
    let d = serve(f, state, &combos, table, display, &mut replies);
    let mut ordered = [0u8; audio::REPLIES_SIZE];
    halves::order(&replies, d.n, &mut ordered);
    let a = d.answer;
    lines::tell(&ordered, d.n, a, out)
}
