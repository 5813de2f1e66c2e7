// OPEN, before settling: a grant, or nothing. Assumes nothing.
#![tactic(auto)]

ghost use Rattle.std.specs.Prelude.{List, ℕ, ◌+◌, ◌<◌, length};
ghost use Rattle.answers.specs.machine.Choosing.{grants};
ghost use Rattle.answers.specs.machine.Granting.{dropped};
ghost use Rattle.answers.specs.machine.Allocating.{opening, do_open};
ghost use Rattle.answers.specs.store.Store.{state_in};
ghost use Rattle.answers.specs.store.Work.{Ready};
ghost use Rattle.answers.specs.Answers.{call_of, Does};

use allocating::choosing::Look;
use allocating::{choosing, granting};
use answers::store::State;
use answers::{Outcome, Request};

// It is granted a map, and the key that it is answered has an entry behind the others.
fn enter(r: Request, s: State, table: &mut [u8], replies: &mut [u8], map: u8) -> Outcome
    requires { Ready s table.old replies.old 0 (length (dropped map (state_in s table.old))) × (s.opens.n < 32) }
    ensures { (ms : List ℕ) → Does (opening (grants map) (call_of r ms)) s table.old replies.old result table.new replies.new }
{
    let g = granting::grant(s, table, replies, 0, map, r.key, r.prec);
    let yes = answers::done(0, map, g.key, 255);
    let mut t = g.state;
    let opens = t.opens;
    t.opens = opens.add(g.key);
    Outcome {
        answer: yes,
        state: t,
        n: g.n,
    }
}

// OPEN never waits: failing or held, it is answered -11 and nothing is changed.
pub fn open(r: Request, s: State, combos: &[u8], table: &mut [u8], replies: &mut [u8]) -> Outcome
    requires { Ready s table.old replies.old 0 1 × (s.opens.n < 32) }
    ensures { Does (do_open (call_of r combos.now)) s table.old replies.old result table.new replies.new }
{
    let cs = s.channels;
    let l = choosing::look_at(cs, r.prec, combos);
    let Look::Grants(m) = l else {
        let no = answers::done(245, 0, r.key, 255);
        return Outcome {
            answer: no,
            state: s,
            n: 0,
        };
    };
    enter(r, s, table, replies, m)
}
