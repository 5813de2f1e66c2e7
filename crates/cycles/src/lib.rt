// What the end of a cycle makes of a write, by the twelve bytes of its numbers: whether it ends, and with what it goes on. Assumes nothing.
#![tactic(auto)]

ghost use Rattle.std.specs.Prelude.{◌≡◌};
ghost use Rattle.cycles.specs.Cycles.{turn_in, applied_in, counted_in, next_in};

use table::Head;

// FINISH is remembered, so the write is cut; or the cycle was its last; or it goes on.
#[derive(Clone, Copy)]
pub enum Turn {
    Cut,
    Over,
    On,
}

// FINISH comes before the count.
pub fn turn_of(b: [u8; Head::NUMBERS]) -> Turn
    ensures { result ≡ turn_in b }
{
    if b[6] == 1 {
        return Turn::Cut;
    }
    if b[0] != 0 {
        return Turn::On;
    }
    if b[1] != 1 {
        return Turn::On;
    }
    Turn::Over
}

// A PERVOL that is remembered is applied; what is not remembered is stored as 0.
fn applied(b: [u8; Head::NUMBERS]) -> [u8; Head::NUMBERS]
    ensures { result ≡ applied_in b }
{
    let mut c = b;
    if b[7] == 1 {
        c[2] = b[8];
        c[3] = b[9];
        c[4] = b[10];
        c[5] = b[11];
        c[7] = 0;
        c[8] = 0;
        c[9] = 0;
        c[10] = 0;
        c[11] = 0;
    }
    c
}

// One cycle less; a count of 0 is endless.
fn counted(b: [u8; Head::NUMBERS]) -> [u8; Head::NUMBERS]
    ensures { result ≡ counted_in b }
{
    let mut c = b;
    let high = b[0];
    let low = b[1];
    if low != 0 {
        c[1] = low - 1;
        return c;
    }
    if high != 0 {
        c[0] = high - 1;
        c[1] = 255;
    }
    c
}

// The numbers with which a write goes on.
pub fn next(b: [u8; Head::NUMBERS]) -> [u8; Head::NUMBERS]
    ensures { result ≡ next_in b }
{
    counted(applied(b))
}
