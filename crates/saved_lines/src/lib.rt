// The frames of a saved text, as lines of hexadecimal, from a struct and its table. A line is written at its place and nowhere else; each
// function hands back the place behind what it wrote. Assumes nothing.
#![tactic(auto)]

ghost use Rattle.std.specs.Prelude.{map, ◌+◌, ◌≤◌, length};
ghost use Rattle.open_keys.specs.machine.Log.{line};
ghost use Rattle.open_keys.specs.OpenKeys.{keys_in};
ghost use Rattle.saved_channels.specs.hex_lines.HexLines.{Put};
ghost use Rattle.board.specs.Board.{state_in, Held};
ghost use Rattle.saved_channels.specs.saved.Saved.{OPEN, key_frame, frames, spelt};
ghost use Rattle.saved_channels.specs.frame_lines.FrameLines.{key_lines};

use board::Board;
use open_keys::Keys;
use saved_channels::hex_lines;
pub use saved_channels::{frame_lines, saved};

// D6 and D7: an open key, the last key.
fn put_key(out: &mut [u8], at: usize, first: u8, key: u16) -> usize
    requires { at + 7 ≤ length out.old }
    ensures { Put out.old at (line (key_frame first key)) result out.new }
{
    hex_lines::put_line(out, at, &[first], &key.to_be_bytes())
}

fn put_opens(out: &mut [u8], at: usize, q: Keys) -> usize
    requires { (q.n ≤ 32) × (q.n ≤ length q.keys) × (at + length (spelt (map (key_frame OPEN) (keys_in q))) ≤ length out.old) }
    ensures { Put out.old at (spelt (map (key_frame OPEN) (keys_in q))) result out.new }
{
    let n = q.n as usize;
    let mut p = at;
    for key in &q.keys[..n] {
        p = put_key(out, p, 0xD6, *key);
    }
    p
}

// The open keys and the last key.
fn put_keys(out: &mut [u8], at: usize, opens: Keys, last: u16) -> usize
    requires { (opens.n ≤ 32) × (opens.n ≤ length opens.keys) × (at + length (key_lines opens last) ≤ length out.old) }
    ensures { Put out.old at (key_lines opens last) result out.new }
{
    let p = put_opens(out, at, opens);
    put_key(out, p, 0xD7, last)
}

// All frames of the state that a board and a table hold.
pub fn put_frames(out: &mut [u8], at: usize, b: Board, table: &[u8]) -> usize
    requires { Held b table.now × (at + length (spelt (frames (state_in b table.now))) ≤ length out.old) }
    ensures { Put out.old at (spelt (frames (state_in b table.now))) result out.new }
{
    let s = b.state;
    let cs = s.channels;
    let w = b.width as usize;
    let opens = s.opens;
    let p = saved_channels::put_channels(out, at, cs, w, table);
    let p = saved_requests::put_requests(out, p, s, table);
    let p = saved_requests::put_writes(out, p, cs, w, table);
    put_keys(out, p, opens, s.last)
}
