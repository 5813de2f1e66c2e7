// D1, the frame of a channel in a saved text, taken into what was read before it. A frame that is none, or that has no place, is passed
// over. Assumes nothing.
#![tactic(auto)]

ghost use Rattle.std.specs.Prelude.{◌≡◌, [], length};
ghost use Rattle.sheet.specs.Sheet.{sheet, channel_from, channel_taken, Takes};

use channel::Channel;
use queue::Queue;
pub use sheet;
use sheet::Draft;

// The channel of a frame D1, without its writes. Its precedence stands there as two's complement.
fn channel_of(f: &[u8]) -> Channel
    requires { length f.now ≡ 12 }
    ensures { result ≡ channel_from f.now }
{
    Channel {
        key: memory::key_at(f, 1),
        prec: f[3].wrapping_add(128),
        locked: f[4] == 1,
        stopped: f[5] == 1,
        writes: Queue::empty(),
    }
}

// D1: the next channel, and what is remembered for its front write.
pub fn take_channel(d: Draft, f: &[u8], kept: &mut [u8]) -> Draft
    requires { length kept.old ≡ 48 }
    ensures { Takes (channel_taken f.now (sheet d.state d.seen [] kept.old)) result [] kept.new }
{
    if f.len() != 12 {
        return d;
    }
    let i = d.seen;
    if i >= 8 {
        return d;
    }
    let mut s = d.state;
    let mut cs = s.channels;
    cs[i] = channel_of(f);
    s.channels = cs;
    memory::copy(kept, i * 6, &f[6..]);
    Draft {
        state: s,
        seen: i + 1,
    }
}
