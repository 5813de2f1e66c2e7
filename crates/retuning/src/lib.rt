// What PERVOL, a synced FINISH and the end of a cycle make of the numbers of a write, in their twelve bytes. Assumes nothing.
#![tactic(auto)]

ghost use Rattle.std.specs.Prelude.{◌≡◌};
ghost use Rattle.retuning.specs.Retuning.{tone_set, tone_kept, finish_kept, retuned_of};

pub use cycles;
use table::Head;

// What is done to a write: its period and volume are set, or remembered for its cycle's end; or its finish is; or a cycle of it ended and it
// goes on. An enum and no closure: a promise names each.
#[derive(Clone, Copy)]
pub enum Tune {
    Set,
    Later,
    Finish,
    Next,
}

fn set_tone(b: [u8; Head::NUMBERS], new: [u8; Head::NUMBERS]) -> [u8; Head::NUMBERS]
    ensures { result ≡ tone_set b new }
{
    let mut c = b;
    c[2] = new[2];
    c[3] = new[3];
    c[4] = new[4];
    c[5] = new[5];
    c
}

// The mark stands before the numbers that are remembered.
fn keep_tone(b: [u8; Head::NUMBERS], new: [u8; Head::NUMBERS]) -> [u8; Head::NUMBERS]
    ensures { result ≡ tone_kept b new }
{
    let mut c = b;
    c[7] = 1;
    c[8] = new[2];
    c[9] = new[3];
    c[10] = new[4];
    c[11] = new[5];
    c
}

fn keep_finish(b: [u8; Head::NUMBERS]) -> [u8; Head::NUMBERS]
    ensures { result ≡ finish_kept b }
{
    let mut c = b;
    c[6] = 1;
    c
}

// The numbers of a write after it; `new` has PERVOL's.
pub fn retuned(b: [u8; Head::NUMBERS], new: [u8; Head::NUMBERS], how: Tune) -> [u8; Head::NUMBERS]
    ensures { result ≡ retuned_of how b new }
{
    match how {
        Tune::Set => set_tone(b, new),
        Tune::Later => keep_tone(b, new),
        Tune::Finish => keep_finish(b),
        Tune::Next => cycles::next(b),
    }
}
