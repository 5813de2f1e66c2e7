// The state written as the 823 bytes that a caller keeps (image's specs/Image.antt has the layout, and what is promised).
// Assumes nothing.
#![tactic(auto)]

ghost use Rattle.std.specs.Prelude.{◌≡◌, ◌+◌, ◌≤◌, ◌<◌, length, set};
ghost use Rattle.image.specs.Image.{keys_bytes, open_bytes, queue_bytes, channel_bytes, Wrote, Entered, Saved};

use channel::Channel;
use image::board::Board;
use open_keys::Keys;
use open_keys::queue::Queue;

fn put_queue(bytes: &mut [u8], at: usize, q: Queue)
    requires { at + 65 ≤ length bytes.old }
    ensures { Wrote bytes.old at (queue_bytes q) 65 bytes.new }
{
    bytes[at] = q.n;
    memory::copy(bytes, at + 1, &q.ids);
}

fn put_channel(bytes: &mut [u8], at: usize, c: Channel)
    requires { at + 70 ≤ length bytes.old }
    ensures { Wrote bytes.old at (channel_bytes c) 70 bytes.new }
{
    memory::put_key(bytes, at, c.key);
    bytes[at + 2] = c.prec;
    bytes[at + 3] = u8::from(c.locked);
    bytes[at + 4] = u8::from(c.stopped);
    put_queue(bytes, at + 5, c.writes);
}

fn put_channels(bytes: &mut [u8], cs: [Channel; 8])
    requires { 560 ≤ length bytes.old }
    ensures { Entered bytes.old cs bytes.new }
{
    for (i, c) in cs.iter().enumerate() {
        put_channel(bytes, i * 70, *c);
    }
}

fn put_keys(bytes: &mut [u8], at: usize, keys: [u16; Keys::ROOM])
    requires { at + 64 ≤ length bytes.old }
    ensures { Wrote bytes.old at (keys_bytes keys) 64 bytes.new }
{
    for (i, k) in keys.iter().enumerate() {
        memory::put_key(bytes, at + 2 * i, *k);
    }
}

fn put_open(bytes: &mut [u8], at: usize, opens: Keys)
    requires { at + 65 ≤ length bytes.old }
    ensures { Wrote bytes.old at (open_bytes opens) 65 bytes.new }
{
    bytes[at] = opens.n;
    put_keys(bytes, at + 1, opens.keys);
}

// How many channels the board has, in the last byte.
fn put_width(bytes: &mut [u8], width: u8)
    requires { 822 < length bytes.old }
    ensures { bytes.new ≡ set bytes.old 822 width }
{
    bytes[822] = width;
}

pub fn save(b: Board, bytes: &mut [u8])
    requires { length bytes.old ≡ 823 }
    ensures { Saved b bytes.new }
{
    let s = b.state;
    put_channels(bytes, s.channels);
    put_queue(bytes, 560, s.locks);
    put_queue(bytes, 625, s.waiters);
    put_queue(bytes, 690, s.waiting);
    put_open(bytes, 755, s.opens);
    memory::put_key(bytes, 820, s.last);
    put_width(bytes, b.width);
}
