// What is done to one waiting request: dropped, granted, or held, which ends the locks over its map.
// A step is promised in the machine's words: the state it leaves and the replies it adds. Assumes nothing.
#![tactic(auto)]

ghost use Rattle.std.specs.Prelude.{◌+◌, ◌<◌, length};
ghost use Rattle.machine_laws.specs.machine.Granting.{dropped};
ghost use Rattle.locks.specs.store.Store.{state_in, Held};
ghost use Rattle.locks.specs.store.Work.{Stands, Ready};
ghost use Rattle.one_request.specs.OneRequest.{out_at, dropped_replies, granted_at, granted_replies, stolen, without_locks, Makes};

use audio::{ADCMD_ALLOCATE, ADIOERR_ALLOCFAILED};
use locks::fates::End;
use locks::reply::Reply;
use locks::store::{Progress, State};
pub use locks::{reply, store, table};
pub use waiting;

// The waiting request at place i is gone, and its id idle.
fn take_out(s: State, table: &mut [u8], i: usize) -> State
    requires { Held s table.old × (i < s.waiting.n) }
    ensures { Stands (out_at i (state_in s table.old)) result table.new }
{
    let q = s.waiting;
    let id = q.at(i);
    table::clear(table, id);
    let left = q.remove(i);
    let mut t = s;
    t.waiting = left;
    t
}

// It fails with NOWAIT: replied -11 and dropped.
pub fn drop_one(s: State, table: &mut [u8], replies: &mut [u8], n: usize, i: usize) -> Progress
    requires { Ready s table.old replies.old n 1 × (i < s.waiting.n) }
    ensures { Makes (out_at i) (dropped_replies i) s table.old replies.old n result table.new replies.new }
{
    let q = s.waiting;
    let id = q.at(i);
    let key = table::key(table, id);
    let t = take_out(s, table, i);
    let at = reply::put(
        replies,
        n,
        Reply {
            id,
            command: ADCMD_ALLOCATE,
            error: ADIOERR_ALLOCFAILED,
            map: 0,
            key,
        },
    );
    Progress { state: t, n: at }
}

// It is granted a map: the grant, the reply.
pub fn grant_one(
    s: State,
    table: &mut [u8],
    replies: &mut [u8],
    n: usize,
    i: usize,
    map: u8,
) -> Progress
    requires { Ready s table.old replies.old n (length (dropped map (state_in s table.old)) + 1) × (i < s.waiting.n) }
    ensures { Makes (granted_at i map) (granted_replies i map) s table.old replies.old n result table.new replies.new }
{
    let q = s.waiting;
    let id = q.at(i);
    let key = table::key(table, id);
    let prec = table::prec(table, id);
    let t = take_out(s, table, i);
    let g = granting::grant(t, table, replies, n, map, key, prec);
    let at = reply::put(
        replies,
        g.n,
        Reply {
            id,
            command: ADCMD_ALLOCATE,
            error: 0,
            map,
            key: g.key,
        },
    );
    let u = g.state;
    Progress { state: u, n: at }
}

// It is held: every lock over a channel of its map is replied -12 and ends; the channels stay locked.
pub fn steal(s: State, table: &mut [u8], replies: &mut [u8], n: usize, map: u8) -> Progress
    requires { Ready s table.old replies.old n (length (stolen map (state_in s table.old))) × (map < 256) }
    ensures { Makes (without_locks map) (stolen map) s table.old replies.old n result table.new replies.new }
{
    let q = s.locks;
    let f = locks::sift(q, table, replies, n, map, End::Stolen);
    let left = f.left;
    let mut t = s;
    t.locks = left;
    Progress { state: t, n: f.n }
}
