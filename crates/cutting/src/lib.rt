// The front writes of channels cut; and FINISH without SYNCCYCLE, which cuts the write in progress at each channel that matches. Assumes
// nothing.
#![tactic(auto)]

ghost use Rattle.std.specs.Prelude.{◌≡◌, false, [], ◌+◌, ◌<◌, length};
ghost use Rattle.answers.specs.machine.Numbers.{synced};
ghost use Rattle.answers.specs.machine.Commands.{front_replies, do_finish};
ghost use Rattle.answers.specs.store.Store.{state_in};
ghost use Rattle.answers.specs.store.Work.{Ready};
ghost use Rattle.answers.specs.Answers.{call_of, Does};
ghost use Rattle.cutting.specs.Cutting.{CutsFronts, finish_replies};

use answers::store::{Progress, State};
use answers::{Outcome, Request};
use channel::Change;
pub use fronts;
use fronts::Front;
use sweep::dropped_writes;
pub use sweep::granting;

// The front writes of the channels that the map names are replied -2, then those who wait for a cycle of theirs. The channels are lent
// with those writes alone.
pub fn cut_fronts(s: State, table: &mut [u8], replies: &mut [u8], n: usize, map: u8) -> Progress
    requires { Ready s table.old replies.old n (length (front_replies map (state_in s table.old))) }
    ensures { CutsFronts map s table.old replies.old n result table.new replies.new }
{
    let cs = s.channels;
    let fronts = channel::change_named(cs, map, Change::FrontOnly);
    let q = s.waiters;
    let d = dropped_writes::drop_named(table, replies, n, fronts, q, map);
    let ds = channel::change_named(cs, map, Change::FrontGone);
    let left = d.left;
    let mut t = s;
    t.channels = ds;
    t.waiters = left;
    Progress { state: t, n: d.n }
}

pub fn finish(r: Request, s: State, table: &mut [u8], replies: &mut [u8]) -> Outcome
    requires { Ready s table.old replies.old 0 (length (finish_replies r (state_in s table.old)) + 1) × (r.map < 256) × (r.command ≡ 11) × (synced r.flags ≡ false) }
    ensures { Does (do_finish (call_of r [])) s table.old replies.old result table.new replies.new }
{
    let cs = s.channels;
    let ok = channel::matching(cs, r.key, r.map);
    let on = fronts::which(cs, Front::Plays, ok);
    let d = cut_fronts(s, table, replies, 0, on);
    let t = d.state;
    let a = sweep::verdict(r, ok);
    answers::finished(r, a, t, replies, d.n)
}
