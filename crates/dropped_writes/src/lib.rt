// Writes aborted, with those who wait for a cycle of theirs.
// A write that is aborted is replied -2 and its id is idle again; where it was in front, so are those who wait for its cycle. Assumes
// nothing.
#![tactic(auto)]

ghost use Rattle.std.specs.Prelude.{◌≡◌, ◌+◌, ◌*◌, ◌≤◌, length};
ghost use Rattle.queue.specs.Queue.{list_of};
ghost use Rattle.machine.specs.Granting.{aborted_in};
ghost use Rattle.dropped_writes.specs.DroppedWrites.{Writable, Writables, held_in, Aborts, AbortsIn, Dropping, Drops};

use audio::{CMD_WRITE, IOERR_ABORTED};
use channel::Channel;
pub use locks;
use locks::fates::End;
use locks::reply::Reply;
use locks::{Sifted, reply, table};
use queue::Queue;

// Every write of a channel, oldest first.
pub fn abort_writes(table: &mut [u8], replies: &mut [u8], n: usize, c: Channel) -> usize
    requires { Writable c × (length table.old ≡ 1472) × (n * 6 + length (list_of c.writes) * 6 ≤ length replies.old) }
    ensures { Aborts c n table.old replies.old result table.new replies.new }
{
    let mut at = n;
    for &id in &c.writes.ids[..c.writes.n as usize] {
        let r = Reply {
            id,
            command: CMD_WRITE,
            error: IOERR_ABORTED,
            map: 0,
            key: c.key,
        };
        at = reply::put(replies, at, r);
        table::clear(table, id);
    }
    at
}

// The same for the channels that a map names, in their order.
pub fn abort_named(
    table: &mut [u8],
    replies: &mut [u8],
    n: usize,
    cs: [Channel; 8],
    map: u8,
) -> usize
    requires { Writables cs × (length table.old ≡ 1472) × (n * 6 + length (aborted_in map (held_in table.old cs)) * 6 ≤ length replies.old) }
    ensures { AbortsIn map cs n table.old replies.old result table.new replies.new }
{
    let mut at = n;
    for (i, &c) in cs.iter().enumerate() {
        if channel::names(map, i) {
            at = abort_writes(table, replies, at, c);
        }
    }
    at
}

// Every write of the channels that a map names is aborted, and those who wait for a cycle there are told after them: the one function
// through which a front write ends otherwise than at a cycle's end. The WAITCYCLEs that are left are in its result. Where the front writes
// alone end, the channels are lent with those alone.
pub fn drop_named(
    table: &mut [u8],
    replies: &mut [u8],
    n: usize,
    cs: [Channel; 8],
    waiters: Queue,
    map: u8,
) -> Sifted
    requires { Dropping map cs waiters table.old replies.old n }
    ensures { Drops map cs waiters table.old replies.old n result table.new replies.new }
{
    let at = abort_named(table, replies, n, cs, map);
    locks::sift(waiters, table, replies, at, map, End::Cut)
}
