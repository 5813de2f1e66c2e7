// What the test of a state reads of the table besides each outstanding id's own entry: the order of the waiting requests, and the
// entries of the idle ids. Assumes nothing.
#![tactic(auto)]

ghost use Rattle.std.specs.Prelude.{◌≡◌, ◌&&◌, ◌+◌, ◌-◌, ◌≤◌, ◌<◌, T, ltb, leb, length, take, drop};
ghost use Rattle.table.specs.memory.Splice.{block};
ghost use Rattle.words.specs.Words.{zeros};
ghost use Rattle.queue.specs.Queue.{list_of};
ghost use Rattle.machine.specs.Lists.{all};
ghost use Rattle.table_rest.specs.TableRest.{falling as falling_m, rest_idle};

pub use placing;
pub use placing::{entries, open_shape, shapes};
use queue::Queue;
pub use table;

// The waiting requests stand by precedence, highest first.
pub fn falling(table: &[u8], q: Queue) -> bool
    requires { (q.n ≤ 64) × (length table.now ≡ 1472) × T (all (λ i. ltb i 64) (list_of q)) }
    ensures { result ≡ falling_m table.now 255 (list_of q) }
{
    let mut last: u8 = 255;
    for id in &q.ids[..q.n as usize] {
        let p = table::prec(table, *id);
        if p > last {
            return false;
        }
        last = p;
    }
    true
}

// An idle id's entry: its 23 bytes are three words, of which two share a byte.
fn is_idle(table: &[u8], i: usize) -> bool
    requires { (i < 64) × (length table.now ≡ 1472) }
    ensures { result ≡ zeros (block 23 table.now i) }
{
    let at = i * 23;
    let all = words::at(table, at) | words::at(table, at + 8) | words::at(table, at + 15);
    all == 0
}

// There are eight ids below i, and none of the last eight was seen.
fn eight(seen: &[u8], i: usize) -> bool
    requires { i ≤ length seen.now }
    ensures { result ≡ (leb 8 i && zeros (take 8 (drop (i - 8) seen.now))) }
{
    if i < 8 {
        return false;
    }
    words::at(seen, i - 8) == 0
}

// The entries of the idle ids: eight at a time where none of eight was seen.
pub fn rest_idle(table: &[u8], seen: [u8; Queue::ROOM]) -> bool
    requires { length table.now ≡ 1472 }
    ensures { result ≡ rest_idle table.now seen 64 }
{
    let mut i: usize = 64;
    // Counted down by hand: a step is one id or eight.
    while i > 0 {
        if seen[i - 1] != 0 {
            i -= 1;
        } else {
            if eight(&seen, i) {
                i -= 8;
                if !words::none(table, i * 23, 23) {
                    return false;
                }
            } else {
                i -= 1;
                if !is_idle(table, i) {
                    return false;
                }
            }
        }
    }
    true
}
