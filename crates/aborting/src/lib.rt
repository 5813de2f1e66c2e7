// ABORT: a write, a WAITCYCLE or a waiting allocation is removed and replied -2; a lock or an idle id is left alone. Where the write
// was in front, those who wait for its cycle follow it.
// The id's entry tells which it is. Assumes nothing.
#![tactic(auto)]

ghost use Rattle.std.specs.Prelude.{◌≡◌, true, [], ◌<◌, get_or};
ghost use Rattle.memory.specs.Splice.{block};
ghost use Rattle.answers.specs.machine.Commands.{do_abort};
ghost use Rattle.answers.specs.store.Work.{Ready};
ghost use Rattle.answers.specs.Answers.{call_of, Does};
ghost use Rattle.aborting.specs.Aborting.{cancels as cancels_m};

use answers::reply::Reply;
use answers::store::State;
use answers::{Outcome, Request, reply};
use audio::{ADCMD_ALLOCATE, ADCMD_WAITCYCLE, CMD_WRITE, IOERR_ABORTED};
use fronts::Front;
use locks::fates::End;
use locks::table;

fn cancels(command: u8) -> bool
    ensures { result ≡ cancels_m command }
{
    command == CMD_WRITE || command == ADCMD_WAITCYCLE || command == ADCMD_ALLOCATE
}

// Removed, and replied -2 with the command and the key that its entry has.
fn cancel(r: Request, s: State, table: &mut [u8], replies: &mut [u8], command: u8) -> Outcome
    requires { Ready s table.old replies.old 0 1 × (r.id < 64) × (command ≡ get_or (block 23 table.old r.id) 0 0) × (cancels_m command ≡ true) }
    ensures { Does (do_abort (call_of r [])) s table.old replies.old result table.new replies.new }
{
    let key = table::key(table, r.id);
    let cs = s.channels;
    let m = fronts::which(cs, Front::Leads(r.id), State::TOP);
    let n = reply::put(
        replies,
        0,
        Reply {
            id: r.id,
            command,
            error: IOERR_ABORTED,
            map: 0,
            key,
        },
    );
    table::clear(table, r.id);
    let mut t = leaving::leave(s, r.id);
    let q = t.waiters;
    let f = locks::sift(q, table, replies, n, m, End::Cut);
    let left = f.left;
    t.waiters = left;
    let a = answers::done(0, 0, r.key, 1);
    Outcome {
        answer: a,
        state: t,
        n: f.n,
    }
}

pub fn abort(r: Request, s: State, table: &mut [u8], replies: &mut [u8]) -> Outcome
    requires { Ready s table.old replies.old 0 1 × (r.id < 64) }
    ensures { Does (do_abort (call_of r [])) s table.old replies.old result table.new replies.new }
{
    let command = table::command(table, r.id);
    if cancels(command) {
        return cancel(r, s, table, replies, command);
    }
    let no = answers::done(0, 0, r.key, 0);
    Outcome {
        answer: no,
        state: s,
        n: 0,
    }
}
