// A call that is refused: its number is answered, its own reply sent where one is due, and the state stays. Assumes nothing.
#![tactic(auto)]

ghost use Rattle.std.specs.Prelude.{◌≡◌, ◌≤◌, ◌<◌, length};
ghost use Rattle.refusing.specs.Refusing.{is_due, Refused};

use answers::store::State;
use answers::{Outcome, Request};
use refusals::Op;

// After -3, -4 and -5 a command's own reply is due.
fn due(op: Op, e: u8) -> bool
    ensures { result ≡ is_due op e }
{
    match op {
        Op::Command => e > 8,
        _ => false,
    }
}

// The number is answered, and the state stays. A number and no `Refusal`: a narrower type would ask more of callers.
pub fn refuse(op: Op, e: u8, r: Request, s: State, replies: &mut [u8]) -> Outcome
    requires { 8 < e → 6 ≤ length replies.old }
    ensures { Refused op e r s replies.old result replies.new }
{
    let a = answers::done(e, 0, r.key, 255);
    if due(op, e) {
        return answers::finished(r, a, s, replies, 0);
    }
    Outcome {
        answer: a,
        state: s,
        n: 0,
    }
}
