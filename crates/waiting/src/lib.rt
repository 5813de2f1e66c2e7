// The next waiting request of which something comes. Assumes nothing.
#![tactic(auto)]

ghost use Rattle.std.specs.Prelude.{◌≡◌, List};
ghost use Rattle.store.specs.machine.State.{Channel as ChannelM};
ghost use Rattle.choosing.specs.standing.Standing.{Stood};
ghost use Rattle.choosing.specs.Choosing.{look_in};
ghost use Rattle.waiting.specs.Waiting.{comes, Readable, Finds};

use choosing::Look;
use choosing::standing::Standing;
use queue::Queue;

// Where a walk stops: a place, and what the request there comes to.
// No Option: who asks counts the requests passed, so that the end has its place too.
#[derive(Clone, Copy)]
pub struct Found {
    pub at: usize,
    pub look: Look,
}

// Something comes of a look: all but a failure of one that can wait.
fn stops(l: Look, impatient: bool) -> bool
    ensures { result ≡ comes (look_in l) impatient }
{
    match l {
        Look::Fails => impatient,
        Look::Held(_) => true,
        Look::Grants(_) => true,
    }
}

// The first waiting request, from a place on, of which something comes; the end where there is none. No state is in hand, since
// none changes on the way.
pub fn next(t: Standing, q: Queue, table: &[u8], from: usize) -> Found
    requires { Readable q table.now }
    ensures { (cs : List ChannelM) → Stood cs t → Finds cs q table.now from result }
{
    let n = q.n as usize;
    for at in from..n {
        let id = q.ids[at];
        let prec = table::prec(table, id);
        let l = choosing::look_by(t, prec, table::combos(table, id));
        if stops(l, table::impatient(table, id)) {
            return Found { at, look: l };
        }
    }
    Found {
        at: from.max(n),
        look: Look::Fails,
    }
}
