// The numbers of the write in progress at each channel that a map names, or what it remembers: where a cycle ended and it goes on, by
// PERVOL, and by FINISH with SYNCCYCLE. No channel and no reply but the command's own. Assumes nothing.
#![tactic(auto)]

ghost use Rattle.std.specs.Prelude.{◌≡◌, ◌⊎◌, ◌<◌, length, get_or};
ghost use Rattle.memory.specs.Splice.{block};
ghost use Rattle.answers.specs.store.Store.{Held};
ghost use Rattle.answers.specs.store.Work.{Ready};
ghost use Rattle.answers.specs.Answers.{Does};
ghost use Rattle.tuning.specs.Tuning.{tuned_at, tune_each, Tunable, Tunes, tuned_of};

use answers::store::State;
pub use answers::{reply, store};
use answers::{Outcome, Request};
use audio::CMD_WRITE;
use channel::Channel;
use fronts::Front;
pub use numbers::table;
use numbers::table::Head;
pub use retuning;
use retuning::Tune;
pub use retuning::cycles;

// The write of an id.
fn tune(table: &mut [u8], id: u8, new: [u8; Head::NUMBERS], how: Tune)
    requires { (id < 64) × (length table.old ≡ 1472) × (get_or (block 23 table.old id) 6 0 ≡ 12) }
    ensures { table.new ≡ tuned_at how new table.old id }
{
    let key = table::key(table, id);
    let mut b = [0u8; Head::NUMBERS];
    memory::copy(&mut b, 0, table::combos(table, id));
    let c = retuning::retuned(b, new, how);
    table::put_all(
        table,
        id,
        Head {
            command: CMD_WRITE,
            key,
            map: 0,
            prec: 0,
            impatient: 0,
            n: 12,
        },
        &c,
    );
}

// The front write of each channel that the map names: each has one.
fn tune_named(cs: [Channel; 8], table: &mut [u8], map: u8, new: [u8; Head::NUMBERS], how: Tune)
    requires { (length table.old ≡ 1472) × Tunable map cs table.old }
    ensures { table.new ≡ tune_each how new map cs table.old }
{
    for (i, &c) in cs.iter().enumerate() {
        if channel::names(map, i) {
            tune(table, c.writes.at(0), new, how);
        }
    }
}

// The write in progress at each channel that the map names, where there is one.
pub fn tune_fronts(s: State, table: &mut [u8], map: u8, new: [u8; Head::NUMBERS], how: Tune)
    requires { Held s table.old }
    ensures { Tunes how new map s table.old table.new }
{
    let cs = s.channels;
    let on = fronts::which(cs, Front::Plays, map);
    tune_named(cs, table, on, new, how);
}

pub fn tune_each(
    r: Request,
    s: State,
    combos: &[u8],
    how: Tune,
    table: &mut [u8],
    replies: &mut [u8],
) -> Outcome
    requires { Ready s table.old replies.old 0 1 × (r.map < 256) × ((length combos.now ≡ 0) ⊎ (length combos.now ≡ 6)) }
    ensures { Does (tuned_of r how combos.now) s table.old replies.old result table.new replies.new }
{
    let cs = s.channels;
    let ok = channel::matching(cs, r.key, r.map);
    let new = numbers::of(combos);
    tune_fronts(s, table, ok, new, how);
    let a = sweep::verdict(r, ok);
    answers::finished(r, a, s, replies, 0)
}
