// The lines of outstanding requests in a saved text, from a queue of ids and a table. A line is written at its place and nowhere else; each
// function hands back the place behind what it wrote. Assumes nothing.
#![tactic(auto)]

ghost use Rattle.std.specs.Prelude.{◌≡◌, map, ◌+◌, ◌*◌, ◌≤◌, ◌<◌, length, get_or};
ghost use Rattle.table.specs.memory.Splice.{block};
ghost use Rattle.machine_laws.specs.machine.Log.{line};
ghost use Rattle.open_keys.specs.queue.Queue.{list_of};
ghost use Rattle.hex_lines.specs.HexLines.{Put};
ghost use Rattle.saved.specs.Saved.{spelt};
ghost use Rattle.frame_lines.specs.FrameLines.{request_line, span_line, write_line, entry_frame, Listed};

use open_keys::queue::Queue;
pub use saved;
pub use waiting;

// D2: a waiting request, its precedence as two's complement.
fn put_request(out: &mut [u8], at: usize, table: &[u8], id: u8) -> usize
    requires { (id < 64) × (length table.now ≡ 1472) × (get_or (block 23 table.now id) 6 0 ≤ 16) × (at + 15 + 2 * get_or (block 23 table.now id) 6 0 ≤ length out.old) }
    ensures { Put out.old at (line (request_line table.now id)) result out.new }
{
    let ms = table::combos(table, id);
    let [high, low] = table::key(table, id).to_be_bytes();
    let head = [
        0xD2u8,
        id,
        high,
        low,
        table::prec(table, id).wrapping_add(128),
        u8::from(table::impatient(table, id)),
        table::count(table, id),
    ];
    hex_lines::put_line(out, at, &head, ms)
}

// D3 and D4: a lock or a WAITCYCLE. Its key and its map stand in its entry behind the command.
fn put_span(out: &mut [u8], at: usize, first: u8, table: &[u8], id: u8) -> usize
    requires { (id < 64) × (length table.now ≡ 1472) × (at + 11 ≤ length out.old) }
    ensures { Put out.old at (line (span_line first table.now id)) result out.new }
{
    let from = id as usize * 23 + 1;
    let to = from + 3;
    let head = [first, id];
    hex_lines::put_line(out, at, &head, &table[from..to])
}

// D5: a write. Its numbers stand in its entry where another has combinations.
fn put_write(out: &mut [u8], at: usize, channel: u8, table: &[u8], id: u8) -> usize
    requires { (id < 64) × (length table.now ≡ 1472) × (at + 19 ≤ length out.old) }
    ensures { Put out.old at (line (write_line channel table.now id)) result out.new }
{
    let from = id as usize * 23 + 7;
    let to = from + 6;
    let head = [0xD5u8, channel, id];
    hex_lines::put_line(out, at, &head, &table[from..to])
}

// The line of an outstanding request, by its first byte.
fn put_entry(out: &mut [u8], at: usize, first: u8, channel: u8, table: &[u8], id: u8) -> usize
    requires { (id < 64) × (length table.now ≡ 1472) × (get_or (block 23 table.now id) 6 0 ≤ 16) × (at + length (line (entry_frame first channel table.now id)) ≤ length out.old) }
    ensures { Put out.old at (line (entry_frame first channel table.now id)) result out.new }
{
    match first {
        0xD2 => put_request(out, at, table, id),
        0xD5 => put_write(out, at, channel, table, id),
        _ => put_span(out, at, first, table, id),
    }
}

// The lines of a queue's requests, in order.
pub fn put_queue(out: &mut [u8], at: usize, first: u8, channel: u8, q: Queue, table: &[u8]) -> usize
    requires { Listed q table.now × (at + length (spelt (map (entry_frame first channel table.now) (list_of q))) ≤ length out.old) }
    ensures { Put out.old at (spelt (map (entry_frame first channel table.now) (list_of q))) result out.new }
{
    let n = q.n as usize;
    let mut p = at;
    for id in &q.ids[..n] {
        p = put_entry(out, p, first, channel, table, *id);
    }
    p
}
