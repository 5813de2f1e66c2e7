// The desk's call on any bytes of a state, where the display's bytes and the answer's are lent too. `boundary` tests that these two have
// room and calls `carry`. Assumes nothing.
#![tactic(auto)]

ghost use Rattle.std.specs.Prelude.{◌≡◌, length};
ghost use Rattle.desk_call.specs.DeskCall.{Lent};
ghost use Rattle.bytes_call.specs.BytesCall.{Carries};

use answers::Request;
pub use desk_call;
use desk_call::Answered;
pub use desk_call::arbiter;
pub use handed;
pub use handed::refusals;
use handed::refusals::Op;

// A desk's call, with the display's bytes in an array.
fn show(
    op: Op,
    r: Request,
    state: &mut [u8],
    combos: &[u8],
    table: &mut [u8],
    display: &mut [u8],
    replies: &mut [u8],
) -> Answered
    requires { length display.old ≡ 18 }
    ensures { Lent op r combos.now state.old table.old replies.old
        display.old
        result state.new table.new replies.new display.new }
{
    let mut shown = display_bytes::read(display);
    let d = desk_call::call(op, r, state, combos, table, &mut shown, replies);
    display_bytes::write(display, &shown);
    d
}

// A call with room for the answer.
pub fn carry(
    op: Op,
    r: Request,
    combos: &[u8],
    state: &mut [u8],
    table: &mut [u8],
    display: &mut [u8],
    replies: &mut [u8],
    answer: &mut [u8],
) -> usize
    requires { (length answer.old ≡ 8) × (length display.old ≡ 18) }
    ensures { Carries op r combos.now state.old table.old display.old
        replies.old
        result state.new table.new display.new replies.new answer.new }
{
    let d = show(op, r, state, combos, table, display, replies);
    let a = d.answer;
    handed::put_answer(answer, a, d.a, d.b);
    d.a + d.b
}
