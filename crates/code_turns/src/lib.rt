// A call of a run, as demand 3 on the code (`code_runs`) speaks of it: it makes `arbiter::call`, and its types see to the ranges
// that a run asks. The board stands in the bytes that are lent: where they hold none, the answer is 1 and nothing moves. The display is the
// managers' and no part of a run. Assumes nothing.
#![tactic(auto)]

ghost use Rattle.std.specs.Prelude.{◌≤◌};
ghost use Rattle.code_turns.specs.CodeTurns.{Turns};

use answers::Request;
use code_runs::arbiter;
use code_runs::arbiter::Answered;
use code_runs::refusals::Op;

// The types keep a precedence within 255 and a key within 65,535; here it is said.
fn ranges(prec: u8, key: u16)
    ensures { (prec ≤ 255) × (key ≤ 65535) }
{}

pub fn take_turn(
    op: Op,
    r: Request,
    state: &mut [u8],
    combos: &[u8],
    table: &mut [u8],
    display: &mut [u8; audio::DISPLAY_SIZE],
    replies: &mut [u8],
) -> Answered
    ensures { Turns op r combos.now state.old table.old replies.old
        display.old
        result state.new table.new replies.new display.new }
{
    ranges(r.prec, r.key);
    arbiter::call(op, r, state, combos, table, display, replies)
}
