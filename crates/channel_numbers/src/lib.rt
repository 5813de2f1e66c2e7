// The numbers of the wall display after a call: as many are added as joined a queue, and as many taken away as left it. A queue of writes
// knows its length. Who joined or left the waiting list comes as two numbers of eight lanes: nobody who stays is counted, and no table is
// read. Assumes nothing.
#![tactic(auto)]

ghost use Rattle.std.specs.Prelude.{◌≡◌, map, length, take};
ghost use Rattle.table.specs.memory.Splice.{splice};
ghost use Rattle.channel_numbers.specs.ChannelNumbers.{count_at, moved};

use channel::Channel;
pub use lanes;
pub use store;
use store::State;

// How many writes each channel has.
fn lengths(cs: [Channel; 8]) -> [u8; 8]
    ensures { result ≡ map (λ c. c.writes.n) cs }
{
    cs.map(|c| c.writes.n)
}

// The numbers of all eight channels: `before` and `after` are the state before the call and after it; `left` and `joined` have in lane c
// how many that name channel c left the waiting list, and joined it.
pub fn correct(display: &mut [u8], before: State, after: State, left: u64, joined: u64)
    requires { length display.old ≡ 18 }
    ensures { display.new ≡ splice display.old 0
        (moved (count_at (map (λ c. c.writes.n) after.channels) joined) (count_at (map (λ c. c.writes.n) before.channels) left) 0
        (take 16 display.old)) }
{
    let old = lengths(before.channels);
    let new = lengths(after.channels);
    let mut less = left;
    let mut more = joined;
    for c in 0..8 {
        shifting::put(display, 2 * c, new[c], old[c]);
        let came = (more % 256) as u8;
        let went = (less % 256) as u8;
        shifting::put(display, 2 * c + 1, came, went);
        more = more / 256;
        less = less / 256;
    }
}
