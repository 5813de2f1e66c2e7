// D5, the frame of a write in a saved text: its entry goes into the table, and its id behind the others of its channel. A frame that is
// none, or that has no place, is passed over. Assumes nothing.
#![tactic(auto)]

ghost use Rattle.std.specs.Prelude.{◌≡◌, length};
ghost use Rattle.sheet.specs.Sheet.{sheet, numbers_from, write_taken, Took};

use queue::Queue;
use store::State;
use table::{Head, memory};

// The numbers of a write: its own, and for the first of a channel what is remembered there.
fn numbers(f: &[u8], q: Queue, kept: &[u8]) -> [u8; 12]
    requires { (length f.now ≡ 9) × (length kept.now ≡ 6) }
    ensures { result ≡ numbers_from f.now q kept.now }
{
    let mut b = [0u8; 12];
    memory::copy(&mut b, 0, &f[3..]);
    if q.n == 0 {
        memory::copy(&mut b, 6, kept);
    }
    b
}

// D5: a write, behind the others of its channel.
pub fn take_write(s: State, f: &[u8], table: &mut [u8], kept: &[u8]) -> State
    requires { (length s.channels ≡ 8) × (length table.old ≡ 1472) × (length kept.now ≡ 48) }
    ensures { Took (write_taken f.now (sheet s 0 table.old kept.now)) result table.new }
{
    if f.len() != 9 {
        return s;
    }
    let i = f[1] as usize;
    if i >= 8 {
        return s;
    }
    if f[2] >= State::REQUESTS {
        return s;
    }
    let mut cs = s.channels;
    let c = cs[i];
    let q = c.writes;
    if q.n >= State::REQUESTS {
        return s;
    }
    let from = i * 6;
    let to = from + 6;
    let b = numbers(f, q, &kept[from..to]);
    let h = Head {
        command: 3,
        key: c.key,
        map: 0,
        prec: 0,
        impatient: 0,
        n: 12,
    };
    table::put_all(table, f[2], h, &b);
    cs[i] = c.with_writes(q.push(f[2]));
    let mut t = s;
    t.channels = cs;
    t
}
