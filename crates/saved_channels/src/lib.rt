// The lines of the channels in a saved text, each with what is remembered for its front write. A line is written at its place and nowhere
// else; each function hands back the place behind what it wrote. Assumes nothing.
#![tactic(auto)]

ghost use Rattle.std.specs.Prelude.{◌≡◌, map, ◌+◌, ◌≤◌, length, take};
ghost use Rattle.machine.specs.Log.{line};
ghost use Rattle.hex_lines.specs.HexLines.{Put};
ghost use Rattle.frame_lines.specs.waiting.Waiting.{Readable};
ghost use Rattle.frame_lines.specs.saved.Saved.{spelt};
ghost use Rattle.frame_lines.specs.FrameLines.{kept_in, channel_line, AllListed};

use channel::Channel;
pub use frame_lines;
pub use frame_lines::saved;
pub use hex_lines;
use queue::Queue;

// What is remembered for the front write of a queue: the last six bytes of its numbers, and zeros where there is none.
fn kept(q: Queue, table: &[u8]) -> [u8; 6]
    requires { Readable q table.now }
    ensures { result ≡ kept_in table.now q }
{
    let mut b = [0u8; 6];
    if q.n == 0 {
        return b;
    }
    let id = q.at(0);
    let from = id as usize * 23 + 13;
    let to = from + 6;
    memory::copy(&mut b, 0, &table[from..to]);
    b
}

// D1: a channel, its precedence as two's complement.
fn put_channel(out: &mut [u8], at: usize, c: Channel, table: &[u8]) -> usize
    requires { Readable c.writes table.now × (at + 25 ≤ length out.old) }
    ensures { Put out.old at (line (channel_line table.now c)) result out.new }
{
    let tail = kept(c.writes, table);
    let [high, low] = c.key.to_be_bytes();
    let head = [
        0xD1u8,
        high,
        low,
        c.prec.wrapping_add(128),
        u8::from(c.locked),
        u8::from(c.stopped),
    ];
    hex_lines::put_line(out, at, &head, &tail)
}

pub fn put_channels(out: &mut [u8], at: usize, cs: [Channel; 8], w: usize, table: &[u8]) -> usize
    requires { (w ≤ 8) × AllListed cs table.now × (at + length (spelt (map (channel_line table.now) (take w cs))) ≤ length out.old) }
    ensures { Put out.old at (spelt (map (channel_line table.now) (take w cs))) result out.new }
{
    let mut p = at;
    for c in &cs[..w] {
        p = put_channel(out, p, *c, table);
    }
    p
}
