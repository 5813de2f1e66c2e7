// A turn of settling: one waiting request was looked at, and is dropped, held or granted.
// A turn is promised by what is still to come: the same state and the same replies. Assumes nothing.
#![tactic(auto)]

ghost use Rattle.std.specs.Prelude.{◌≡◌, ◌+◌, ◌<◌, true, false};
ghost use Rattle.machine.specs.Choosing.{fails as fails_m, held, grants};
ghost use Rattle.lanes.specs.Lanes.{word_of};
ghost use Rattle.one_request.specs.store.Store.{state_in, Held};
ghost use Rattle.one_request.specs.waiting.Waiting.{waiter};
ghost use Rattle.visiting.specs.Visiting.{Looked, Visits, Turned};

pub use choosing;
use choosing::Look;
pub use choosing::standing;
pub use lanes;
use one_request::store::{Progress, State};
use one_request::table;
pub use one_request::{reply, store, waiting};

// One look: what became of the request at place i. `next` is the place to look at next; after a grant the walk starts again. `left` is the
// word of who left the waiting list: a 1 in the lane of each channel that it named.
#[derive(Clone, Copy)]
pub struct Turn {
    pub state: State,
    pub n: usize,
    pub next: usize,
    pub granted: bool,
    pub left: u64,
}

// The word of the waiting request at place i.
fn word_at(s: State, table: &[u8], i: usize) -> u64
    requires { Held s table.now × (i < s.waiting.n) }
    ensures { result ≡ word_of (waiter i (state_in s table.now)).combos }
{
    let q = s.waiting;
    let id = q.at(i);
    lanes::word(table::combos(table, id))
}

// It fails with NOWAIT: dropped, and the next stands at its place.
fn fails(s: State, table: &mut [u8], replies: &mut [u8], n: usize, i: usize) -> Turn
    requires { Looked s table.old replies.old n i fails_m × ((waiter i (state_in s table.old)).impatient ≡ true) }
    ensures { Turned s table.old replies.old n i result table.new replies.new }
{
    let left = word_at(s, table, i);
    let d = one_request::drop_one(s, table, replies, n, i);
    let t = d.state;
    Turn {
        state: t,
        n: d.n,
        next: i,
        granted: false,
        left,
    }
}

// The walk goes on behind place i, with the state as it is.
fn pass(d: Progress, i: usize) -> Turn
    requires { i < 64 }
    ensures { result ≡ record { state = d.state; n = d.n; next = i + 1; granted = false; left = 0 } }
{
    let kept = d.state;
    Turn {
        state: kept,
        n: d.n,
        next: i + 1,
        granted: false,
        left: 0,
    }
}

fn hold(s: State, table: &mut [u8], replies: &mut [u8], n: usize, i: usize, map: u8) -> Turn
    requires { Looked s table.old replies.old n i (held map) }
    ensures { Turned s table.old replies.old n i result table.new replies.new }
{
    let d = one_request::steal(s, table, replies, n, map);
    pass(d, i)
}

fn grant(s: State, table: &mut [u8], replies: &mut [u8], n: usize, i: usize, map: u8) -> Turn
    requires { Looked s table.old replies.old n i (grants map) }
    ensures { Turned s table.old replies.old n i result table.new replies.new }
{
    let left = word_at(s, table, i);
    let d = one_request::grant_one(s, table, replies, n, i, map);
    let t = d.state;
    Turn {
        state: t,
        n: d.n,
        next: 0,
        granted: true,
        left,
    }
}

// What a look at place i asks for.
pub fn visit(s: State, table: &mut [u8], replies: &mut [u8], n: usize, i: usize, l: Look) -> Turn
    requires { Visits s table.old replies.old n i l }
    ensures { Turned s table.old replies.old n i result table.new replies.new }
{
    match l {
        Look::Fails => fails(s, table, replies, n, i),
        Look::Held(m) => hold(s, table, replies, n, i, m),
        Look::Grants(m) => grant(s, table, replies, n, i, m),
    }
}
