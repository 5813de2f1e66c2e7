// The lines of all outstanding requests in a saved text: the waiting ones, the locks and the WAITCYCLEs, and the writes of the channels.
// Each function hands back the place behind what it wrote. Assumes nothing.
#![tactic(auto)]

ghost use Rattle.std.specs.Prelude.{◌+◌, ◌≤◌, length, take};
ghost use Rattle.hex_lines.specs.HexLines.{Put};
ghost use Rattle.store.specs.Store.{Held as WideHeld};
ghost use Rattle.frame_lines.specs.saved.Saved.{spelt};
ghost use Rattle.frame_lines.specs.FrameLines.{writes_in, request_lines, AllListed};

use channel::Channel;
use store::State;

// The waiting requests, the locks and the WAITCYCLEs.
pub fn put_requests(out: &mut [u8], at: usize, s: State, table: &[u8]) -> usize
    requires { WideHeld s table.now × (at + length (request_lines s table.now) ≤ length out.old) }
    ensures { Put out.old at (request_lines s table.now) result out.new }
{
    let p = frame_lines::put_queue(out, at, 0xD2, 0, s.waiting, table);
    let p = frame_lines::put_queue(out, p, 0xD3, 0, s.locks, table);
    frame_lines::put_queue(out, p, 0xD4, 0, s.waiters, table)
}

// The writes of each channel, front first.
pub fn put_writes(out: &mut [u8], at: usize, cs: [Channel; 8], w: usize, table: &[u8]) -> usize
    requires { (w ≤ 8) × AllListed cs table.now × (at + length (spelt (writes_in table.now 0 (take w cs))) ≤ length out.old) }
    ensures { Put out.old at (spelt (writes_in table.now 0 (take w cs))) result out.new }
{
    let mut p = at;
    for (i, c) in cs[..w].iter().enumerate() {
        p = frame_lines::put_queue(out, p, 0xD5, i as u8, c.writes, table);
    }
    p
}
