// Each id that a queue of the state names, placed once: the table has it, it was not seen before, and its entry is what its place
// asks for. Assumes nothing.
#![tactic(auto)]

ghost use Rattle.std.specs.Prelude.{◌≡◌, ◌&&◌, ◌+◌, ◌≤◌, ◌<◌, T, eqb, length, replicate};
ghost use Rattle.queue.specs.Queue.{list_of};
ghost use Rattle.machine.specs.Lists.{all};
ghost use Rattle.span_entries.specs.shapes.Shapes.{good as goodM, shaped as shaped_m};
ghost use Rattle.placing.specs.Placing.{placed, kind_test, placed_writes, placed_all};

use channel::Channel;
use queue::Queue;
use span_entries::store::State;
pub use span_entries::{entries, shapes, store};
pub use wait_entries::open_shape;

// The place where an id is outstanding: among a channel's writes, with the channel's key and its front write, among the locks, among
// the WAITCYCLEs, or waiting, on a board with that highest map.
#[derive(Clone, Copy)]
enum Kind {
    Write(u16, u8),
    Lock,
    Cycle,
    Wait(u8),
}

// Whether the entry is what the id's place asks for.
fn kept(cs: [Channel; 8], table: &[u8], id: u8, kind: Kind) -> bool
    requires { (id < 64) × (length table.now ≡ 1472) }
    ensures { result ≡ kind_test kind cs table.now id }
{
    match kind {
        Kind::Write(key, lead) => entries::is_write(table, id, key, id == lead),
        Kind::Lock => span_entries::is_sound_lock(cs, table, id),
        Kind::Cycle => span_entries::is_sound_waiter(cs, table, id),
        Kind::Wait(top) => wait_entries::is_sound_wait(table, id, top),
    }
}

// Whether the id was not seen, which its mark says, and its entry is what its place asks for.
fn fits(cs: [Channel; 8], table: &[u8], kind: Kind, mark: u8, id: u8) -> bool
    requires { (id < 64) × (length table.now ≡ 1472) }
    ensures { result ≡ (eqb mark 0 && kind_test kind cs table.now id) }
{
    mark == 0 && kept(cs, table, id, kind)
}

// The ids of a queue, each with its entry: the marks of the ids seen so far, 1 at each. Where an id is not in order they are the error,
// and tell the ids before it.
fn place(
    cs: [Channel; 8],
    table: &[u8],
    kind: Kind,
    seen: [u8; Queue::ROOM],
    q: Queue,
) -> Result<[u8; Queue::ROOM], [u8; Queue::ROOM]>
    requires { (q.n ≤ 64) × (length table.now ≡ 1472) }
    ensures { result ≡ placed (kind_test kind cs table.now) seen (list_of q) }
{
    let mut marks = seen;
    for id in &q.ids[..q.n as usize] {
        if *id >= State::REQUESTS {
            return Err(marks);
        }
        let at = *id as usize;
        let mark = marks[at];
        if !fits(cs, table, kind, mark, *id) {
            return Err(marks);
        }
        marks[at] = 1;
    }
    Ok(marks)
}

// The writes of every channel. Where there are none, nothing is copied for a walk.
fn place_writes(cs: [Channel; 8], table: &[u8]) -> Result<[u8; Queue::ROOM], [u8; Queue::ROOM]>
    requires { T (all goodM cs) × (length table.now ≡ 1472) }
    ensures { result ≡ placed_writes table.now (replicate 64 0) cs }
{
    let mut marks = [0u8; Queue::ROOM];
    for c in &cs {
        let q = c.writes;
        if q.n > 0 {
            marks = place(cs, table, Kind::Write(c.key, q.at(0)), marks, q)?;
        }
    }
    Ok(marks)
}

// The ids of all places, one after another: their marks, or, as the error, those of the ids before the first that is not in order.
pub fn place_all(s: State, table: &[u8], top: u8) -> Result<[u8; Queue::ROOM], [u8; Queue::ROOM]>
    requires { T (shaped_m s) × (length table.now ≡ 1472) }
    ensures { result ≡ placed_all (top + 1) s table.now }
{
    let cs = s.channels;
    let writes = place_writes(cs, table)?;
    let l = s.locks;
    let locks = place(cs, table, Kind::Lock, writes, l)?;
    let v = s.waiters;
    let cycles = place(cs, table, Kind::Cycle, locks, v)?;
    let w = s.waiting;
    place(cs, table, Kind::Wait(top), cycles, w)
}
