// The end of a cycle of a channel's front write, once those who wait for it are answered: the write is cut, or is over, or goes on.
// Assumes nothing.
#![tactic(auto)]

ghost use Rattle.std.specs.Prelude.{◌≡◌, ◌<◌, length, get_or};
ghost use Rattle.memory.specs.Splice.{block};
ghost use Rattle.tuning.specs.table.Entry.{list_in};
ghost use Rattle.tuning.specs.store.Store.{state_in};
ghost use Rattle.tuning.specs.store.Work.{Ready};
ghost use Rattle.tuning.specs.cycles.Cycles.{turn_in};
ghost use Rattle.ending.specs.Ending.{Led, EndsWrite, EndsCycle};

use audio::{CMD_WRITE, IOERR_ABORTED};
pub use play;
use tuning::cycles::Turn;
use tuning::reply::Reply;
use tuning::retuning::Tune;
use tuning::store::{Progress, State};
use tuning::table::Head;
use tuning::{cycles, reply, table};

// What becomes of the write of an id.
fn turn_at(table: &[u8], id: u8) -> Turn
    requires { (id < 64) × (length table.now ≡ 1472) × (get_or (block 23 table.now id) 6 0 ≡ 12) }
    ensures { result ≡ turn_in (list_in (block 23 table.now id)) }
{
    let mut b = [0u8; Head::NUMBERS];
    memory::copy(&mut b, 0, table::combos(table, id));
    cycles::turn_of(b)
}

// The front write of channel i ends: it is replied, and its id is idle.
fn end_write(
    s: State,
    table: &mut [u8],
    replies: &mut [u8],
    n: usize,
    i: usize,
    error: u8,
    map: u8,
) -> Progress
    requires { Ready s table.old replies.old n 1 × (i < 8) × Led i (state_in s table.old) }
    ensures { EndsWrite i error map s table.old replies.old n result table.new replies.new }
{
    let cs = s.channels;
    let c = cs[i];
    let q = c.writes;
    let id = q.at(0);
    let at = reply::put(
        replies,
        n,
        Reply {
            id,
            command: CMD_WRITE,
            error,
            map,
            key: c.key,
        },
    );
    table::clear(table, id);
    let left = q.remove(0);
    let d = c.with_writes(left);
    let t = play::put_channel(s, i, d);
    Progress { state: t, n: at }
}

// FINISH that is remembered ends the write with -2, its last cycle with 0; else it goes on, with PERVOL applied and a cycle less.
pub fn end_cycle(s: State, table: &mut [u8], replies: &mut [u8], n: usize, i: usize) -> Progress
    requires { Ready s table.old replies.old n 1 × (i < 8) × Led i (state_in s table.old) }
    ensures { EndsCycle i s table.old replies.old n result table.new replies.new }
{
    let cs = s.channels;
    let c = cs[i];
    let q = c.writes;
    let t = turn_at(table, q.at(0));
    let b = play::bit(i);
    match t {
        Turn::Cut => end_write(s, table, replies, n, i, IOERR_ABORTED, 0),
        Turn::Over => end_write(s, table, replies, n, i, 0, b),
        Turn::On => {
            let none = [0u8; Head::NUMBERS];
            tuning::tune_fronts(s, table, b, none, Tune::Next);
            Progress { state: s, n }
        }
    }
}
