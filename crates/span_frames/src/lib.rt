// D3 and D4, the frames of a lock and a WAITCYCLE in a saved text: each puts its entry into the table, and its id behind the others. A
// frame that is none of its kind, or that has no place, is passed over. Assumes nothing.
#![tactic(auto)]

ghost use Rattle.std.specs.Prelude.{◌≡◌, [], ◌*◌, ◌<◌, T, length, get_or, MatchOption};
ghost use Rattle.queue.specs.Queue.{pushed};
ghost use Rattle.table.specs.memory.Splice.{splice};
ghost use Rattle.sheet.specs.Sheet.{sheet, has_span, span_of, lock_taken, waiter_taken, Took};

use queue::Queue;
pub use store;
use store::State;
pub use table;
use table::{Head, memory};

// The entry of a lock or a WAITCYCLE.
fn put_span(command: u8, f: &[u8], table: &mut [u8])
    requires { (length f.now ≡ 5) × (get_or f.now 1 0 < 64) × (length table.old ≡ 1472) }
    ensures { table.new ≡ splice table.old (get_or f.now 1 0 * 23) (span_of command f.now) }
{
    let h = Head {
        command,
        key: memory::key_at(f, 2),
        map: f[4],
        prec: 0,
        impatient: 0,
        n: 0,
    };
    table::put(table, f[1], h);
}

// The ids with that of a frame behind them, its entry put into the table. None, and the table as it was, where the frame is no span or has
// no place.
fn take_span(command: u8, q: Queue, f: &[u8], table: &mut [u8]) -> Option<Queue>
    requires { length table.old ≡ 1472 }
    ensures { MatchOption result ((T (has_span f.now q) → ⊥) × (table.new ≡ table.old))
        (λ more. T (has_span f.now q) × (more ≡ pushed q (get_or f.now 1 0)) × (table.new ≡ splice table.old (get_or f.now 1 0 * 23) (span_of command f.now))) }
{
    if f.len() != 5 || f[1] >= State::REQUESTS || q.n >= State::REQUESTS {
        return None;
    }
    put_span(command, f, table);
    Some(q.push(f[1]))
}

// D3: a lock, behind the others.
pub fn take_lock(s: State, f: &[u8], table: &mut [u8]) -> State
    requires { length table.old ≡ 1472 }
    ensures { Took (lock_taken f.now (sheet s 0 table.old [])) result table.new }
{
    let Some(locks) = take_span(13, s.locks, f, table) else {
        return s;
    };
    State { locks, ..s }
}

// D4: a WAITCYCLE, behind the others.
pub fn take_waiter(s: State, f: &[u8], table: &mut [u8]) -> State
    requires { length table.old ≡ 1472 }
    ensures { Took (waiter_taken f.now (sheet s 0 table.old [])) result table.new }
{
    let Some(waiters) = take_span(14, s.waiters, f, table) else {
        return s;
    };
    State { waiters, ..s }
}
