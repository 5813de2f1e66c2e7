// What is done once a call's refusal is decided: it is refused, or performed and settled. Assumes nothing.
#![tactic(auto)]

ghost use Rattle.std.specs.Prelude.{◌≤◌, ◌<◌, ◌≡◌, true, length, get_or};
ghost use Rattle.table.specs.memory.Splice.{block};
ghost use Rattle.operations.specs.refusals.declared.Op.TheVariants.{Abort};
ghost use Rattle.answers.specs.machine.Call.{answering};
ghost use Rattle.display.specs.Looks.{looked_by};
ghost use Rattle.answers.specs.store.Store.{state_in as wide_in};
ghost use Rattle.answers.specs.Answers.{Told as WideTold};
ghost use Rattle.operations.specs.refusals.Refusals.{asked_of};
ghost use Rattle.deciding.specs.Deciding.{rests_at, decision_of, waits_in, wait_word, gone_by, joined_by, Moved, Decided};

use answers::store::State;
use answers::{Answer, Request};
use operations::refusals::Op;
pub use operations::{refusals, steps};
pub use refusing;
pub use settling::lanes;

// An OPEN answered -11 is the one call, of those that are not refused, after which nothing settles.
fn rests(op: Op, a: Answer) -> bool
    ensures { result ≡ rests_at op a.error }
{
    match op {
        Op::Open => a.error == audio::ADIOERR_ALLOCFAILED,
        _ => false,
    }
}

// The word of the waiting request of an id, by its entry; 0 where it does not wait.
fn wait_word(table: &[u8], id: u8) -> u64
    requires { (id < 64) × (length table.now ≡ 1472)
        × (waits_in table.now id ≡ true → get_or (block 23 table.now id) 6 0 ≤ 16) }
    ensures { result ≡ wait_word table.now id }
{
    if table::command(table, id) != audio::ADCMD_ALLOCATE {
        return 0;
    }
    lanes::word(table::combos(table, id))
}

// The word of who leaves the waiting list before settling: only an ABORT takes one out.
fn gone(op: Op, table: &[u8], id: u8) -> u64
    requires { (length table.now ≡ 1472)
        × (op ≡ Abort → (id < 64) × (waits_in table.now id ≡ true → get_or (block 23 table.now id) 6 0 ≤ 16)) }
    ensures { result ≡ gone_by op table.now id }
{
    match op {
        Op::Abort => wait_word(table, id),
        _ => 0,
    }
}

// The word of who joined it: the request itself, where one more waits.
fn joined(waited: u8, wait: u8, combos: &[u8]) -> u64
    ensures { result ≡ joined_by waited wait combos.now }
{
    if waited < wait {
        return lanes::word(combos);
    }
    0
}

// What came of a call, and how many waiting requests the last settling looked at: its own, or an earlier one where it settled nothing.
// `left` and `joined` have in each lane how many that name its channel left the waiting list, and joined it.
#[derive(Clone, Copy)]
pub struct Done {
    pub outcome: answers::Outcome,
    pub looks: usize,
    pub left: u64,
    pub joined: u64,
}

// What is done once the refusal is decided: `e` is its number, 0 for none; `looks` are those of the last settling. On the state of
// eight channels, whatever the board's. A number and no Result: a narrower type would ask more of callers.
pub fn decided(
    op: Op,
    e: u8,
    r: Request,
    s: State,
    combos: &[u8],
    table: &mut [u8],
    replies: &mut [u8],
    looks: usize,
) -> Done
    requires { Decided op e r s combos.now table.old replies.old }
    ensures { WideTold (answering (decision_of e) (asked_of op r combos.now (length replies.old)) (wide_in s table.old))
        replies.old result.outcome table.new replies.new
        × (result.looks ≡ looked_by (decision_of e) (asked_of op r combos.now (length replies.old))
        (wide_in s table.old) looks)
        × Moved (decision_of e) (asked_of op r combos.now (length replies.old)) (wide_in s table.old)
        result.left result.joined }
{
    if e != 0 {
        let refused = refusing::refuse(op, e, r, s, replies);
        return Done {
            outcome: refused,
            looks,
            left: 0,
            joined: 0,
        };
    }
    let aborted = gone(op, table, r.id);
    let d = operations::perform(op, r, s, combos, table, replies);
    let a = d.answer;
    let t = d.state;
    let waited = s.waiting;
    let wait = t.waiting;
    let more = joined(waited.n, wait.n, combos);
    if rests(op, a) {
        return Done {
            outcome: d,
            looks,
            left: aborted,
            joined: more,
        };
    }
    let u = settling::settle(t, table, replies, d.n);
    let after = u.state;
    let settled = answers::Outcome {
        answer: a,
        state: after,
        n: u.n,
    };
    Done {
        outcome: settled,
        looks: u.looks,
        left: aborted + u.left,
        joined: more,
    }
}
