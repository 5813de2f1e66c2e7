// LOCK: all that was asked for, or nothing. Assumes nothing.
#![tactic(auto)]

ghost use Rattle.std.specs.Prelude.{◌≡◌, not, [], ◌<◌, T};
ghost use Rattle.answers.specs.machine.Lists.{among};
ghost use Rattle.answers.specs.machine.Sound.{ids};
ghost use Rattle.answers.specs.machine.Commands.{do_lock};
ghost use Rattle.answers.specs.store.Store.{state_in, Held};
ghost use Rattle.answers.specs.store.Work.{Stands, Ready};
ghost use Rattle.answers.specs.Answers.{call_of, Does};
ghost use Rattle.locking.specs.Locking.{locked_by};

use answers::store::State;
use answers::{Outcome, Request};
use audio::{ADCMD_LOCK, ADIOERR_NOALLOCATION};
use channel::Change;
use table::Head;

// A lock that is outstanding: its id last in the queue, its entry in the table, its channels marked.
fn enter(r: Request, s: State, table: &mut [u8]) -> State
    requires { Held s table.old × (r.id < 64) × T (not (among r.id (ids (state_in s table.old)))) }
    ensures { Stands (locked_by r (state_in s table.old)) result table.new }
{
    table::put(
        table,
        r.id,
        Head {
            command: ADCMD_LOCK,
            key: r.key,
            map: r.map,
            prec: 0,
            impatient: 0,
            n: 0,
        },
    );
    let q = s.locks;
    let more = q.push(r.id);
    let cs = s.channels;
    let ds = channel::change_named(cs, r.map, Change::Lock);
    let mut t = s;
    t.channels = ds;
    t.locks = more;
    t
}

pub fn lock(r: Request, s: State, table: &mut [u8], replies: &mut [u8]) -> Outcome
    requires { Ready s table.old replies.old 0 1 × (r.map < 256) × (r.id < 64) × T (not (among r.id (ids (state_in s table.old)))) × (r.command ≡ 13) }
    ensures { Does (do_lock (call_of r [])) s table.old replies.old result table.new replies.new }
{
    let cs = s.channels;
    let ok = channel::matching(cs, r.key, r.map);
    if ok != r.map {
        let a = answers::done(ADIOERR_NOALLOCATION, 0, r.key, 255);
        return answers::finished(r, a, s, replies, 0);
    }
    if r.map == 0 {
        let a = answers::done(0, 0, r.key, 255);
        return answers::finished(r, a, s, replies, 0);
    }
    let t = enter(r, s, table);
    let a = answers::pending(r.key);
    Outcome {
        answer: a,
        state: t,
        n: 0,
    }
}
