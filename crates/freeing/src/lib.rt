// FREE and CLOSE: channels freed, their writes aborted with those who wait for a cycle, their bits cleared in every lock.
// A command is promised in the machine's words: its answer, the state it leaves and its replies. Assumes nothing.
#![tactic(auto)]

ghost use Rattle.std.specs.Prelude.{◌≡◌, false, [], ◌+◌, ◌≤◌, ◌<◌, length};
ghost use Rattle.answers.specs.machine.Commands.{freeing_replies, do_free, do_close};
ghost use Rattle.answers.specs.store.Store.{state_in};
ghost use Rattle.answers.specs.store.Work.{Ready};
ghost use Rattle.freeing.specs.Freeing.{match_replies, owned_replies, Frees};
ghost use Rattle.answers.specs.Answers.{call_of, Does};

use answers::store::{Progress, State};
use answers::{Outcome, Request};
use channel::Change;
use locks::fates::End;
use sweep::dropped_writes;

// The channels of a map freed: their writes aborted, those who wait for a cycle told, their bits cleared in every lock.
pub fn freeing(s: State, map: u8, table: &mut [u8], replies: &mut [u8]) -> Progress
    requires { Ready s table.old replies.old 0 (length (freeing_replies map (state_in s table.old))) × (map < 256) }
    ensures { Frees map s table.old replies.old result table.new replies.new }
{
    let cs = s.channels;
    let w = s.waiters;
    let d = dropped_writes::drop_named(table, replies, 0, cs, w, map);
    let q = s.locks;
    let f = locks::sift(q, table, replies, d.n, map, End::Freed);
    let ds = channel::change_named(cs, map, Change::Free);
    let left = f.left;
    let waiters = d.left;
    let mut t = s;
    t.channels = ds;
    t.locks = left;
    t.waiters = waiters;
    Progress { state: t, n: f.n }
}

// FREE.
pub fn free(r: Request, s: State, table: &mut [u8], replies: &mut [u8]) -> Outcome
    requires { Ready s table.old replies.old 0 (length (match_replies r (state_in s table.old)) + 1) × (r.map < 256) × (r.command ≡ 9) }
    ensures { Does (do_free (call_of r [])) s table.old replies.old result table.new replies.new }
{
    let cs = s.channels;
    let ok = channel::matching(cs, r.key, r.map);
    let f = freeing(s, ok, table, replies);
    let t = f.state;
    let a = sweep::verdict(r, ok);
    answers::finished(r, a, t, replies, f.n)
}

// CLOSE: the oldest entry of the key goes, and every channel with the key is freed.
pub fn close(r: Request, s: State, table: &mut [u8], replies: &mut [u8]) -> Outcome
    requires { Ready s table.old replies.old 0 (length (owned_replies r (state_in s table.old))) }
    ensures { Does (do_close (call_of r [])) s table.old replies.old result table.new replies.new }
{
    let cs = s.channels;
    let ok = channel::matching(cs, r.key, State::TOP);
    let f = freeing(s, ok, table, replies);
    let mut t = f.state;
    let opens = t.opens;
    t.opens = opens.close(r.key);
    let a = answers::done(0, 0, r.key, 255);
    Outcome {
        answer: a,
        state: t,
        n: f.n,
    }
}
