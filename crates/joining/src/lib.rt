// A request joins the waiting ones, at its place by precedence and arrival. Assumes nothing.
#![tactic(auto)]

ghost use Rattle.std.specs.Prelude.{◌≡◌, List, ℕ, ◌+◌, ◌≤◌, ◌<◌, length, not, T};
ghost use Rattle.keys.specs.machine.Lists.{among};
ghost use Rattle.keys.specs.machine.Sound.{ids};
ghost use Rattle.keys.specs.machine.Allocating.{waits};
ghost use Rattle.keys.specs.queue.Queue.{list_of};
ghost use Rattle.answers.specs.store.Store.{state_in, Held, Small};
ghost use Rattle.answers.specs.Answers.{call_of, Does};
ghost use Rattle.joining.specs.Joining.{place_in};

use answers::store::State;
use answers::{Outcome, Request};
use keys::queue::Queue;
use keys::table;
use keys::table::Head;

// Where a request of this precedence joins: before the first of lower precedence.
fn place(q: Queue, table: &[u8], prec: u8) -> usize
    requires { (q.n ≤ 64) × Small (list_of q) × (length table.now ≡ 1472) }
    ensures { result ≡ place_in prec table.now (list_of q) }
{
    let n = q.n as usize;
    for (i, id) in q.ids[..n].iter().enumerate() {
        if table::prec(table, *id) < prec {
            return i;
        }
    }
    n
}

// The request joins the waiting ones and is outstanding. No reply is due, so whatever list there is stays as it is.
pub fn wait(r: Request, s: State, combos: &[u8], table: &mut [u8]) -> Outcome
    requires { Held s table.old × (length combos.now ≤ 16) × (r.id < 64) × T (not (among r.id (ids (state_in s table.old)))) }
    ensures { (l : List ℕ) → Does (waits (call_of r combos.now)) s table.old l result table.new l }
{
    let q = s.waiting;
    let k = place(q, table, r.prec);
    let q2 = q.insert(k, r.id);
    table::put_all(
        table,
        r.id,
        Head {
            command: 32,
            key: r.key,
            map: 0,
            prec: r.prec,
            impatient: (r.flags / 64) % 2,
            n: combos.len() as u8,
        },
        combos,
    );
    let mut t = s;
    t.waiting = q2;
    let a = answers::pending(r.key);
    Outcome {
        answer: a,
        state: t,
        n: 0,
    }
}
