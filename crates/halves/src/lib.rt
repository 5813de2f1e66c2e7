// The replies of a call, made one behind the other, laid out in the two halves of the list that the caller lends: desk A's from the
// first record on, desk B's from record 32 on. Records behind each half's number are untouched. Or, as the log has them, desk B's behind
// desk A's. Assumes nothing.
#![tactic(auto)]

ghost use Rattle.std.specs.Prelude.{◌≡◌, ◌+◌, ◌*◌, ◌≤◌, length};
ghost use Rattle.memory.specs.Splice.{splice};
ghost use Rattle.halves.specs.Halves.{one, picked, Laying, Laid, in_order, Ordering};

// How many replies there are in each half.
#[derive(Clone, Copy)]
pub struct Halves {
    pub a: usize,
    pub b: usize,
}

// Record i, where its id is the desk's, as record `at` of `half`; how many there are then.
fn pick(half: &mut [u8], at: usize, made: &[u8], i: usize, desk: u8) -> usize
    requires { (i * 6 + 6 ≤ length made.now) × (at * 6 + length (one desk made.now i) ≤ length half.old) }
    ensures { (result * 6 ≡ at * 6 + length (one desk made.now i)) × (half.new ≡ splice half.old (at * 6) (one desk made.now i)) }
{
    let k = i * 6;
    if desks::of(made[k]) != desk {
        return at;
    }
    let e = k + 6;
    memory::copy(half, at * 6, &made[k..e]);
    at + 1
}

// Of the first n records, those of a desk's ids, from the first record of `half` on; how many they are.
fn fill(half: &mut [u8], made: &[u8], n: usize, desk: u8) -> usize
    requires { (n * 6 ≤ length made.now) × (length (picked desk n made.now) ≤ length half.old) }
    ensures { (result * 6 ≡ length (picked desk n made.now)) × (half.new ≡ splice half.old 0 (picked desk n made.now)) }
{
    let mut at: usize = 0;
    for i in 0..n {
        at = pick(half, at, made, i, desk);
    }
    at
}

// The first n records of `made`. Where there are none, the list may be of any length.
pub fn lay(made: &[u8; audio::REPLIES_SIZE], n: usize, replies: &mut [u8]) -> Halves
    requires { Laying made.now n replies.old }
    ensures { Laid made.now n replies.old result replies.new }
{
    if n == 0 {
        return Halves { a: 0, b: 0 };
    }
    let a = fill(replies, made, n, 0);
    let b = fill(&mut replies[audio::HALF_SIZE..], made, n, 1);
    Halves { a, b }
}

// The first n records of `made`, desk A's before desk B's.
pub fn order(made: &[u8; audio::REPLIES_SIZE], n: usize, out: &mut [u8])
    requires { Ordering made.now n out.old }
    ensures { out.new ≡ splice out.old 0 (in_order n made.now) }
{
    let a = fill(out, made, n, 0);
    let k = a * 6;
    fill(&mut out[k..], made, n, 1);
}
