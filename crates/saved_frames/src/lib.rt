// One frame of a saved text, taken into a state and its table (crate `sheet`). A frame that is none of its kind, or that has no place, is
// passed over: whether a text is one that was saved is told afterwards, by saving again what was read. Assumes nothing.
#![tactic(auto)]

ghost use Rattle.std.specs.Prelude.{◌≡◌, [], ◌<◌, length};
ghost use Rattle.channel_frames.specs.sheet.Sheet.{sheet, added_key, request_taken, open_taken, last_taken, part_taken, taken, Took, Takes};

pub use channel_frames::sheet;
use channel_frames::sheet::Draft;
use open_keys::Keys;
pub use span_frames::store;
use span_frames::store::State;
use span_frames::table;
use span_frames::table::Head;

// D2: a waiting request, behind the others. Its precedence stands in the frame as two's complement.
fn take_request(s: State, f: &[u8], table: &mut [u8]) -> State
    requires { length table.old ≡ 1472 }
    ensures { Took (request_taken f.now (sheet s 0 table.old [])) result table.new }
{
    let n = f.len();
    if n < 7 {
        return s;
    }
    if n > 23 {
        return s;
    }
    let q = s.waiting;
    if f[1] >= State::REQUESTS {
        return s;
    }
    if q.n >= State::REQUESTS {
        return s;
    }
    let h = Head {
        command: 32,
        key: memory::key_at(f, 2),
        map: 0,
        prec: f[4].wrapping_add(128),
        impatient: f[5],
        n: f[6],
    };
    table::put_all(table, f[1], h, &f[7..]);
    let more = q.push(f[1]);
    let mut t = s;
    t.waiting = more;
    t
}

// One key more, behind the others.
fn add(q: Keys, key: u16) -> Keys
    requires { q.n < 32 }
    ensures { result ≡ added_key q key }
{
    let mut keys = q.keys;
    let at = q.n as usize;
    keys[at] = key;
    Keys { n: q.n + 1, keys }
}

// D6: an open key, behind the others.
fn take_open(s: State, f: &[u8]) -> State
    ensures { Took (open_taken f.now (sheet s 0 [] [])) result [] }
{
    if f.len() != 3 {
        return s;
    }
    let q = s.opens;
    if q.n >= 32 {
        return s;
    }
    let more = add(q, memory::key_at(f, 1));
    let mut t = s;
    t.opens = more;
    t
}

// D7: the last key.
fn take_last(s: State, f: &[u8]) -> State
    ensures { Took (last_taken f.now (sheet s 0 [] [])) result [] }
{
    if f.len() != 3 {
        return s;
    }
    let mut t = s;
    t.last = memory::key_at(f, 1);
    t
}

// A frame that is no channel's, by its first byte.
fn take_part(first: u8, s: State, f: &[u8], table: &mut [u8], kept: &[u8]) -> State
    requires { (length s.channels ≡ 8) × (length table.old ≡ 1472) × (length kept.now ≡ 48) }
    ensures { Took (part_taken first f.now (sheet s 0 table.old kept.now)) result table.new }
{
    match first {
        0xD2 => take_request(s, f, table),
        0xD3 => span_frames::take_lock(s, f, table),
        0xD4 => span_frames::take_waiter(s, f, table),
        0xD5 => write_frames::take_write(s, f, table, kept),
        0xD6 => take_open(s, f),
        0xD7 => take_last(s, f),
        _ => s,
    }
}

// Any frame.
pub fn take(d: Draft, f: &[u8], table: &mut [u8], kept: &mut [u8]) -> Draft
    requires { (length d.state.channels ≡ 8) × (length table.old ≡ 1472) × (length kept.old ≡ 48) }
    ensures { Takes (taken f.now (sheet d.state d.seen table.old kept.old)) result table.new kept.new }
{
    if f.len() == 0 {
        return d;
    }
    if f[0] == 0xD1 {
        return channel_frames::take_channel(d, f, kept);
    }
    let s = d.state;
    let t = take_part(f[0], s, f, table, kept);
    Draft {
        state: t,
        seen: d.seen,
    }
}
