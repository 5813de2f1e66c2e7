// WAITCYCLE, on the lowest channel that the map names: outstanding while a write is in progress there, else done at once. Assumes
// nothing.
#![tactic(auto)]

ghost use Rattle.std.specs.Prelude.{◌≡◌, not, [], ◌<◌, T};
ghost use Rattle.answers.specs.machine.Lists.{among};
ghost use Rattle.answers.specs.machine.Sound.{ids};
ghost use Rattle.answers.specs.machine.Commands.{do_waitcycle};
ghost use Rattle.answers.specs.store.Store.{state_in, Held};
ghost use Rattle.answers.specs.store.Work.{Stands, Ready};
ghost use Rattle.answers.specs.Answers.{call_of, Does};
ghost use Rattle.awaiting.specs.Awaiting.{awaited_by};

use answers::store::State;
use answers::{Outcome, Request};
use audio::{ADCMD_WAITCYCLE, ADIOERR_NOALLOCATION};
pub use play;
use table::Head;

// One that is outstanding: its id last in the queue, its entry in the table.
fn enter(r: Request, s: State, table: &mut [u8], map: u8) -> State
    requires { Held s table.old × (r.id < 64) × T (not (among r.id (ids (state_in s table.old)))) }
    ensures { Stands (awaited_by r map (state_in s table.old)) result table.new }
{
    table::put(
        table,
        r.id,
        Head {
            command: ADCMD_WAITCYCLE,
            key: r.key,
            map,
            prec: 0,
            impatient: 0,
            n: 0,
        },
    );
    let q = s.waiters;
    let more = q.push(r.id);
    let mut t = s;
    t.waiters = more;
    t
}

pub fn wait_cycle(r: Request, s: State, table: &mut [u8], replies: &mut [u8]) -> Outcome
    requires { Ready s table.old replies.old 0 1 × (r.command ≡ 14) × (r.id < 64) × T (not (among r.id (ids (state_in s table.old)))) }
    ensures { Does (do_waitcycle (call_of r [])) s table.old replies.old result table.new replies.new }
{
    let Some(i) = play::place(r, s) else {
        let no = answers::done(ADIOERR_NOALLOCATION, 0, r.key, 255);
        return answers::finished(r, no, s, replies, 0);
    };
    let b = play::bit(i);
    let cs = s.channels;
    let c = cs[i];
    if !fronts::plays(c) {
        let a = answers::done(0, b, r.key, 255);
        return answers::finished(r, a, s, replies, 0);
    }
    let t = enter(r, s, table, b);
    let a = answers::pending(r.key);
    Outcome {
        answer: a,
        state: t,
        n: 0,
    }
}
