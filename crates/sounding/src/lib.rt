// FINISH and PERVOL, which are done at once or remembered for a cycle's end. Assumes nothing.
#![tactic(auto)]

ghost use Rattle.std.specs.Prelude.{◌≡◌, ◌⊎◌, [], length};
ghost use Rattle.answers.specs.Answers.{Does};
ghost use Rattle.changing.specs.Changing.{command_of, Accepted};

use answers::store::State;
use answers::{Outcome, Request};
pub use changing;
pub use changing::freeing;
use tuning::retuning::Tune;

// FINISH: at once, or remembered.
pub fn finish(r: Request, s: State, table: &mut [u8], replies: &mut [u8]) -> Outcome
    requires { Accepted r s table.old replies.old × (r.command ≡ 11) }
    ensures { Does (command_of r []) s table.old replies.old result table.new replies.new }
{
    if r.is_synced() {
        return tuning::tune_each(r, s, &[], Tune::Finish, table, replies);
    }
    cutting::finish(r, s, table, replies)
}

// PERVOL: at once, or remembered.
pub fn pervol(r: Request, s: State, combos: &[u8], table: &mut [u8], replies: &mut [u8]) -> Outcome
    requires { Accepted r s table.old replies.old × (r.command ≡ 12) × ((length combos.now ≡ 0) ⊎ (length combos.now ≡ 6)) }
    ensures { Does (command_of r combos.now) s table.old replies.old result table.new replies.new }
{
    if r.is_synced() {
        return tuning::tune_each(r, s, combos, Tune::Later, table, replies);
    }
    tuning::tune_each(r, s, combos, Tune::Set, table, replies)
}
