// The state read from the 823 bytes that a caller keeps, which `image` has tested. Assumes nothing.
#![tactic(auto)]

ghost use Rattle.std.specs.Prelude.{◌≡◌, ◌+◌, ◌≤◌, length};
ghost use Rattle.image.specs.Image.{keys_from, open_at, queue_at, channel_at, channels_at, state_of, Whole};

use channel::Channel;
use image::board::Board;
use image::store::State;
use open_keys::Keys;
use open_keys::queue::Queue;
use std::array;

fn queue_at(bytes: &[u8], at: usize) -> Queue
    requires { at + 65 ≤ length bytes.now }
    ensures { result ≡ queue_at bytes.now at }
{
    let mut ids = [0u8; 64];
    ids.copy_from_slice(&bytes[at + 1..at + 65]);
    Queue { n: bytes[at], ids }
}

fn channel_at(bytes: &[u8], at: usize) -> Channel
    requires { at + 70 ≤ length bytes.now }
    ensures { result ≡ channel_at bytes.now at }
{
    let q = queue_at(bytes, at + 5);
    Channel {
        key: memory::key_at(bytes, at),
        prec: bytes[at + 2],
        locked: bytes[at + 3] == 1,
        stopped: bytes[at + 4] == 1,
        writes: q,
    }
}

fn channels_at(bytes: &[u8]) -> [Channel; 8]
    requires { 560 ≤ length bytes.now }
    ensures { result ≡ channels_at 8 bytes.now 0 }
{
    array::from_fn(|i| channel_at(bytes, i * 70))
}

fn keys_at(bytes: &[u8], at: usize) -> [u16; Keys::ROOM]
    requires { at + 64 ≤ length bytes.now }
    ensures { result ≡ keys_from 32 bytes.now at }
{
    array::from_fn(|i| memory::key_at(bytes, at + 2 * i))
}

fn open_at(bytes: &[u8], at: usize) -> Keys
    requires { at + 65 ≤ length bytes.now }
    ensures { result ≡ open_at bytes.now at }
{
    let keys = keys_at(bytes, at + 1);
    Keys { n: bytes[at], keys }
}

pub fn load(bytes: &[u8]) -> Board
    requires { Whole bytes.now }
    ensures { result ≡ state_of bytes.now }
{
    let cs = channels_at(bytes);
    let locks = queue_at(bytes, 560);
    let waiters = queue_at(bytes, 625);
    let waiting = queue_at(bytes, 690);
    let opens = open_at(bytes, 755);
    let s = State {
        channels: cs,
        locks,
        waiters,
        waiting,
        opens,
        last: memory::key_at(bytes, 820),
    };
    Board {
        width: bytes[822],
        state: s,
    }
}
