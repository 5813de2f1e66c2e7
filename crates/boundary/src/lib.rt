// The arbiter on bytes. State, table, display, replies and answer are bytes that the caller keeps and lends; nothing is kept here.
// `call` asks nothing: whatever the bytes are, the answer and every byte lent are determined (specs/Boundary.antt).
// `qamhudeer` exports it to programs in C. Assumes nothing.
#![tactic(auto)]

ghost use Rattle.bytes_call.specs.handed.Handed.{request_of};
ghost use Rattle.boundary.specs.Boundary.{Crossed};

use answers::Request;
pub use bytes_call;
pub use bytes_call::{desk_call, handed};
pub use starting;
pub use starting::sizes;

// No call was made.
pub const UNANSWERED: usize = 255;

// The number of replies to both desks; 255 where the answer is not lent eight bytes or the display not 18, and nothing moves. The desk
// is 0 for A, 1 for B.
#[tactic(auto, using(crate::proofs::Laws::no_answer_room, crate::proofs::Laws::no_display_room))]
pub fn call(
    desk: u8,
    op: u8,
    id: u8,
    flags: u8,
    map: u8,
    prec: u8,
    key: u16,
    combos: &[u8],
    state: &mut [u8],
    table: &mut [u8],
    display: &mut [u8],
    replies: &mut [u8],
    answer: &mut [u8],
) -> usize
    ensures { Crossed op (request_of desk op id flags map prec key) combos.now
        state.old table.old display.old replies.old answer.old
        result state.new table.new display.new replies.new answer.new }
{
    if answer.len() != 8 {
        return UNANSWERED;
    }
    if display.len() != 18 {
        return UNANSWERED;
    }
    let r = Request {
        desk,
        command: op,
        id,
        flags,
        map,
        prec: handed::stored(prec),
        key,
    };
    let o = handed::op_of(op);
    bytes_call::carry(o, r, combos, state, table, display, replies, answer)
}
