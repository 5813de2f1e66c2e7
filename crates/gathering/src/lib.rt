// From lumps of input to lines. Assumes nothing.
#![tactic(auto)]

ghost use Rattle.std.specs.Prelude.{◌≡◌, ◌-◌, ◌<◌, ◌≤◌, length};
ghost use Rattle.gathering.specs.Lumps.{front, Gathers};

// What stands of a line after a lump of input, how much of the lump is used, and whether the line has ended.
// Not an Option: both numbers tell of a line that goes on as well.
#[derive(Clone, Copy)]
pub struct Gathered {
    pub n: usize,
    pub used: usize,
    pub ended: bool,
}

// Where the first LF stands; the length where there is none.
pub fn end_of(input: &[u8]) -> usize
    ensures { result ≡ length (front input.now) }
{
    input
        .iter()
        .position(|b| *b == b'\n')
        .unwrap_or(input.len())
}

// How many of `more` bytes are kept behind n.
fn kept(n: usize, more: usize) -> usize
    ensures { (result ≤ more) × (result ≤ 527 - n) × (result < more → result ≡ 527 - n) }
{
    more.min(527usize.saturating_sub(n))
}

// The bytes before the first LF, put behind the first n of the line. What has no place is passed over: a line that long is
// malformed, and stays so when it is cut.
pub fn gather(line: &mut [u8; 527], n: usize, input: &[u8]) -> Gathered
    ensures { Gathers line.old n input.now result line.new }
{
    let end = end_of(input);
    let k = kept(n, end);
    // an n past the end of the line is no place to copy to
    if k > 0 {
        memory::copy(line, n, &input[..k]);
    }
    if end < input.len() {
        return Gathered {
            n: n + k,
            used: end + 1,
            ended: true,
        };
    }
    Gathered {
        n: n + k,
        used: end,
        ended: false,
    }
}
