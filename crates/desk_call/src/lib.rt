// The call of a desk: the arbiter's call on any board, any table, any reply list, with any request, its replies laid out in the two
// halves of the list: desk A's from the first record on, desk B's from record 32 on. The display is that of the arbiter's call, and so are the
// bytes that hold the board. Assumes nothing.
#![tactic(auto)]

ghost use Rattle.std.specs.Prelude.{◌≡◌};
ghost use Rattle.desk_call.specs.DeskCall.{room_of, Lent};

use answers::{Answer, Request};
pub use arbiter;
use arbiter::refusals::Op;

// An answer, and how many replies there are in each half (by name, as the promise `Lent` has them). The board afterwards is in the bytes
// that were lent.
#[derive(Clone, Copy)]
pub struct Answered {
    pub answer: Answer,
    pub a: usize,
    pub b: usize,
}

// A list as long as the one that is lent, up to 64 records: it refuses what that refuses.
fn room(n: usize) -> usize
    ensures { result ≡ room_of n }
{
    if n < audio::REPLIES_SIZE {
        n
    } else {
        audio::REPLIES_SIZE
    }
}

// A call on any bytes.
pub fn call(
    op: Op,
    r: Request,
    state: &mut [u8],
    combos: &[u8],
    table: &mut [u8],
    display: &mut [u8; audio::DISPLAY_SIZE],
    replies: &mut [u8],
) -> Answered
    ensures { Lent op r combos.now state.old table.old replies.old
        display.old
        result state.new table.new replies.new display.new }
{
    let mut made = [0u8; audio::REPLIES_SIZE];
    let k = room(replies.len());
    let d = arbiter::call(op, r, state, combos, table, display, &mut made[..k]);
    let h = halves::lay(&made, d.n, replies);
    let a = d.answer;
    Answered {
        answer: a,
        a: h.a,
        b: h.b,
    }
}
