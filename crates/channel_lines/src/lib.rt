// The board's channels as lines of upper-case hexadecimal, each ended by LF, for service staff.
// A line is written at its place and nowhere else. Assumes nothing.
#![tactic(auto)]

ghost use Rattle.std.specs.Prelude.{◌≡◌, ◌+◌, ◌*◌, ◌≤◌, ◌<◌, length};
ghost use Rattle.spelling.specs.memory.Splice.{splice};
ghost use Rattle.channel_lines.specs.ChannelLines.{marks_of, channel_line, channel_lines, Shows};

use board::Board;
use board::channel::Channel;

// 1 locked, 2 stopped.
fn marks(locked: bool, stopped: bool) -> u8
    ensures { result ≡ marks_of locked stopped }
{
    u8::from(locked) + 2 * u8::from(stopped)
}

// The line of channel i. A stored precedence is told as two's complement.
fn put_channel(out: &mut [u8], i: usize, c: Channel)
    requires { (i < 8) × (i * 15 + 15 ≤ length out.old) }
    ensures { out.new ≡ splice out.old (i * 15) (channel_line i c) }
{
    let [high, low] = c.key.to_be_bytes();
    let prec = c.prec.wrapping_add(128);
    let head = [0xB0, i as u8, high, low];
    hex_lines::put_line(
        out,
        i * 15,
        &head,
        &[prec, marks(c.locked, c.stopped), c.writes.n],
    );
}

fn put_channels(out: &mut [u8], cs: &[Channel])
    requires { (length out.old ≡ 120) × (length cs.now ≤ 8) }
    ensures { out.new ≡ splice out.old 0 (channel_lines 0 cs.now) }
{
    for (i, c) in cs.iter().enumerate() {
        put_channel(out, i, *c);
    }
}

// The lines of the board's own channels; how many bytes they are. A board that says it has more than eight has eight.
pub fn channels(b: Board, out: &mut [u8; 120]) -> usize
    ensures { Shows b out.old result out.new }
{
    let n = usize::from(b.width.min(8));
    put_channels(out, &b.state.channels[..n]);
    n * 15
}
