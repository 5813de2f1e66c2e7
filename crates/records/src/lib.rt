// The list of who waits, as records of four bytes in a list that the caller lends: id, precedence (two's complement), held or not,
// desk. The requests stand in their order, and no byte behind the last record is written. Assumes nothing.
#![tactic(auto)]

ghost use Rattle.std.specs.Prelude.{◌≡◌, List, ◌+◌, ◌*◌, ◌≤◌, ◌%◌, length, if◌then◌else◌};
ghost use Rattle.widening.specs.machine.State.{Channel as ChannelM};
ghost use Rattle.display.specs.Display.{holds};
ghost use Rattle.table.specs.memory.Splice.{splice};
ghost use Rattle.choosing.specs.standing.Standing.{Stood};
ghost use Rattle.choosing.specs.Choosing.{look_in};
ghost use Rattle.board.specs.Board.{Held};
ghost use Rattle.waiting.specs.Waiting.{Readable};
ghost use Rattle.records.specs.Records.{four_bytes, first_records, Lists};

use board::Board;
use choosing::standing::Standing;
use choosing::{Look, standing};
use queue::Queue;

// Held or not.
fn mark(l: Look) -> u8
    ensures { result ≡ (if holds (look_in l) then 1 else 0) }
{
    match l {
        Look::Fails => 0,
        Look::Held(_) => 1,
        Look::Grants(_) => 0,
    }
}

// A stored precedence as two's complement.
fn signed(prec: u8) -> u8
    ensures { result ≡ (prec + 128) % 256 }
{
    if prec < 128 { prec + 128 } else { prec - 128 }
}

// The record at place i.
fn put(out: &mut [u8], i: usize, id: u8, prec: u8, held: u8)
    requires { i * 4 + 4 ≤ length out.old }
    ensures { out.new ≡ splice out.old (i * 4) (four_bytes id prec held) }
{
    let at = i * 4;
    let p = signed(prec);
    let desk = desks::of(id);
    out[at] = id;
    out[at + 1] = p;
    out[at + 2] = held;
    out[at + 3] = desk;
}

// The records of a queue's requests, each looked at now.
fn put_all(t: Standing, q: Queue, table: &[u8], out: &mut [u8])
    requires { Readable q table.now × (256 ≤ length out.old) }
    ensures { (cs : List ChannelM) → Stood cs t → out.new ≡ splice out.old 0 (first_records cs q table.now q.n) }
{
    let n = q.n as usize;
    for i in 0..n {
        let id = q.ids[i];
        let prec = table::prec(table, id);
        let l = choosing::look_by(t, prec, table::combos(table, id));
        put(out, i, id, prec, mark(l));
    }
}

// The records in front of a list that has room for 64; how many they are.
pub fn fill_front(b: Board, table: &[u8], out: &mut [u8]) -> usize
    requires { Held b table.now × (256 ≤ length out.old) }
    ensures { Lists b table.now out.old result out.new }
{
    let q = b.state.waiting;
    let t = standing::of(b.state.channels);
    put_all(t, q, table, out);
    q.n as usize
}
