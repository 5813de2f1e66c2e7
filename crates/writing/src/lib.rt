// WRITE, on the lowest channel that the map names: the write joins its queue with its numbers. Assumes nothing.
#![tactic(auto)]

ghost use Rattle.std.specs.Prelude.{◌≡◌, ◌⊎◌, ◌<◌, length, get_or, not, T};
ghost use Rattle.answers.specs.machine.Lists.{among};
ghost use Rattle.answers.specs.machine.Sound.{ids};
ghost use Rattle.answers.specs.machine.State.{free};
ghost use Rattle.answers.specs.machine.Commands.{do_write};
ghost use Rattle.channel.specs.Channel.{channel_of};
ghost use Rattle.answers.specs.store.Store.{state_in, Held};
ghost use Rattle.answers.specs.store.Work.{Ready};
ghost use Rattle.answers.specs.Answers.{call_of, Does};
ghost use Rattle.writing.specs.Writing.{Joins};

use answers::store::State;
use answers::{Outcome, Request};
use audio::{ADIOERR_NOALLOCATION, CMD_WRITE};
use channel::Channel;
use numbers::table;
use numbers::table::Head;

pub fn write(r: Request, s: State, combos: &[u8], table: &mut [u8], replies: &mut [u8]) -> Outcome
    requires { Ready s table.old replies.old 0 1 × (r.command ≡ 3) × (r.id < 64) × T (not (among r.id (ids (state_in s table.old)))) × ((length combos.now ≡ 0) ⊎ (length combos.now ≡ 6)) }
    ensures { Does (do_write (call_of r combos.now)) s table.old replies.old result table.new replies.new }
{
    let Some(i) = play::place(r, s) else {
        let no = answers::done(ADIOERR_NOALLOCATION, 0, r.key, 255);
        return answers::finished(r, no, s, replies, 0);
    };
    let cs = s.channels;
    let c = cs[i];
    let t = join(r, s, combos, table, i, c);
    let a = answers::pending(r.key);
    Outcome {
        answer: a,
        state: t,
        n: 0,
    }
}

// The write joins the queue of channel i, and its entry is written.
fn join(r: Request, s: State, combos: &[u8], table: &mut [u8], i: usize, c: Channel) -> State
    requires { Held s table.old × (i < 8) × (c ≡ get_or s.channels i (channel_of free)) × (r.id < 64) × T (not (among r.id (ids (state_in s table.old)))) × ((length combos.now ≡ 0) ⊎ (length combos.now ≡ 6)) }
    ensures { Joins i r combos.now s table.old result table.new }
{
    let b = numbers::of(combos);
    table::put_all(
        table,
        r.id,
        Head {
            command: CMD_WRITE,
            key: r.key,
            map: 0,
            prec: 0,
            impatient: 0,
            n: 12,
        },
        &b,
    );
    let q = c.writes;
    let q2 = q.push(r.id);
    let d = c.with_writes(q2);
    play::put_channel(s, i, d)
}
