// The two events, on the lowest channel that the map names, where a write is in progress there: a cycle of it ended, or the driver gave
// it up. Else they answer map 0. Assumes nothing.
#![tactic(auto)]

ghost use Rattle.std.specs.Prelude.{◌≡◌, [], length};
ghost use Rattle.answers.specs.machine.State.{CYCLE_ENDED, GAVE_UP};
ghost use Rattle.answers.specs.machine.Commands.{do_event};
ghost use Rattle.answers.specs.store.Work.{Ready};
ghost use Rattle.answers.specs.Answers.{call_of, Does};
ghost use Rattle.ending.specs.play.Play.{on_board};
ghost use Rattle.events.specs.Events.{plays_at, Meets};

use answers::store::{Progress, State};
use answers::{Outcome, Request};
use cutting::fronts;
use ending::play;
use locks::fates::End;

// The place of that channel.
fn place(map: u8, s: State) -> Option<usize>
    requires { length s.channels ≡ 8 }
    ensures { result ≡ on_board (plays_at map s.channels) }
{
    let i = channel::lowest(map);
    if 8 <= i {
        return None;
    }
    let c = s.channels[i];
    if fronts::plays(c) { Some(i) } else { None }
}

// Those who wait for a cycle of the channels that the map names are answered.
fn meet(s: State, table: &mut [u8], replies: &mut [u8], map: u8) -> Progress
    requires { Ready s table.old replies.old 0 0 }
    ensures { Meets map s table.old replies.old result table.new replies.new }
{
    let w = s.waiters;
    let f = locks::sift(w, table, replies, 0, map, End::Met);
    let left = f.left;
    let mut t = s;
    t.waiters = left;
    Progress { state: t, n: f.n }
}

pub fn cycle_ended(r: Request, s: State, table: &mut [u8], replies: &mut [u8]) -> Outcome
    requires { Ready s table.old replies.old 0 1 }
    ensures { Does (do_event CYCLE_ENDED (call_of r [])) s table.old replies.old result table.new replies.new }
{
    let Some(i) = place(r.map, s) else {
        let no = answers::done(0, 0, r.key, 255);
        return Outcome {
            answer: no,
            state: s,
            n: 0,
        };
    };
    let b = play::bit(i);
    let m = meet(s, table, replies, b);
    let t = m.state;
    let e = ending::end_cycle(t, table, replies, m.n, i);
    let u = e.state;
    let a = answers::done(0, b, r.key, 255);
    Outcome {
        answer: a,
        state: u,
        n: e.n,
    }
}

pub fn gave_up(r: Request, s: State, table: &mut [u8], replies: &mut [u8]) -> Outcome
    requires { Ready s table.old replies.old 0 1 }
    ensures { Does (do_event GAVE_UP (call_of r [])) s table.old replies.old result table.new replies.new }
{
    let Some(i) = place(r.map, s) else {
        let no = answers::done(0, 0, r.key, 255);
        return Outcome {
            answer: no,
            state: s,
            n: 0,
        };
    };
    let b = play::bit(i);
    let d = cutting::cut_fronts(s, table, replies, 0, b);
    let t = d.state;
    let a = answers::done(0, b, r.key, 255);
    Outcome {
        answer: a,
        state: t,
        n: d.n,
    }
}
