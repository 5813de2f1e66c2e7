// The lines of a saved text, one after another, taken into a fresh state and a lent table. Assumes nothing.
#![tactic(auto)]

ghost use Rattle.std.specs.Prelude.{◌+◌, ◌≤◌, min, ◌≡◌, length, drop};
ghost use Rattle.reading.specs.Reading.{read_from};
ghost use Rattle.saved_frames.specs.sheet.Sheet.{Took};

pub use gathering;
pub use hex_lines;
pub use saved_frames::sheet;
use saved_frames::sheet::Draft;
use saved_frames::store::State;

// The place behind a line that ends at `e`, in a text of n bytes: behind its LF, or the end where it has none.
fn behind(e: usize, n: usize) -> usize
    ensures { result ≡ min (e + 1) n }
{
    if e < n {
        return e + 1;
    }
    n
}

// The state that the text's lines from `from` on make, and their table.
pub fn read(text: &[u8], from: usize, table: &mut [u8]) -> State
    requires { (from ≤ length text.now) × (length table.old ≡ 1472) }
    ensures { Took (read_from (drop from text.now) table.old) result table.new }
{
    let s = State::fresh();
    let mut d = Draft { state: s, seen: 0 };
    let mut kept = [0u8; 48];
    let mut at = from;
    // Walked by hand: a split at LF has one line more, the empty one behind the last LF, which is none of the text's.
    while at < text.len() {
        let e = at + gathering::end_of(&text[at..]);
        let mut f = [0u8; 23];
        let n = hex_lines::octets(&text[at..e], &mut f);
        let r = saved_frames::take(d, &f[..n], table, &mut kept);
        d = r;
        at = behind(e, text.len());
    }
    d.state
}
