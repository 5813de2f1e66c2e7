// The channels of a state, in the bytes that a caller lends. A channel is read as a small head by value, changed by its methods, which hand
// the new one back, and stored again. What is stored determines every byte, and the board that they hold (specs/Heads.antt). Assumes
// nothing.
#![tactic(auto)]

ghost use Rattle.std.specs.Prelude.{◌≡◌, ◌<◌, length};
ghost use Rattle.machine.specs.InBytes.{mark_of};
ghost use Rattle.image.specs.Image.{state_of};
ghost use Rattle.lent.specs.Lent.{channel_on};
ghost use Rattle.lent_channels.specs.Heads.{head_in, unused_head, reset_head, prec_head, flush_head, stop_head, lock_head, taken_head, PutHead};

pub use lent;

// A channel by value: all of it but the ids of its writes, which stay in the lent bytes. `writes` is how many they are; a channel stored
// with 0 has none.
#[derive(Clone, Copy)]
pub struct Channel {
    pub key: u16,
    pub prec: u8,
    pub locked: bool,
    pub stopped: bool,
    pub writes: u8,
}

impl Channel {
    pub fn unused() -> Self
        ensures { result ≡ unused_head }
    {
        Channel {
            key: 0,
            prec: 128,
            locked: false,
            stopped: false,
            writes: 0,
        }
    }

    pub fn reset(mut self) -> Self
        ensures { result ≡ reset_head self }
    {
        self.stopped = false;
        self.writes = 0;
        self
    }

    pub fn free(self) -> Self
        ensures { result ≡ unused_head }
    {
        Channel::unused()
    }

    pub fn set_precedence(mut self, prec: u8) -> Self
        ensures { result ≡ prec_head prec self }
    {
        self.prec = prec;
        self
    }

    pub fn flush(mut self) -> Self
        ensures { result ≡ flush_head self }
    {
        self.writes = 0;
        self
    }

    pub fn stop(mut self, on: bool) -> Self
        ensures { result ≡ stop_head on self }
    {
        self.stopped = on;
        self
    }

    pub fn lock(mut self) -> Self
        ensures { result ≡ lock_head self }
    {
        self.locked = true;
        self
    }

    pub fn take(self, key: u16, prec: u8) -> Self
        ensures { result ≡ taken_head key prec self }
    {
        Channel {
            key,
            prec,
            locked: self.locked,
            stopped: false,
            writes: 0,
        }
    }
}

fn mark(on: bool) -> u8
    ensures { result ≡ mark_of on }
{
    u8::from(on)
}

pub fn key(state: &[u8], i: usize) -> u16
    requires { (i < 8) × (length state.now ≡ 823) }
    ensures { result ≡ (channel_on i (state_of state.now)).key }
{
    memory::key_at(state, i * audio::CHANNEL_SIZE)
}

pub fn prec(state: &[u8], i: usize) -> u8
    requires { (i < 8) × (length state.now ≡ 823) }
    ensures { result ≡ (channel_on i (state_of state.now)).prec }
{
    state[i * audio::CHANNEL_SIZE + audio::CHANNEL_PRECEDENCE]
}

pub fn locked(state: &[u8], i: usize) -> bool
    requires { (i < 8) × (length state.now ≡ 823) }
    ensures { result ≡ (channel_on i (state_of state.now)).locked }
{
    state[i * audio::CHANNEL_SIZE + audio::CHANNEL_LOCKED] == 1
}

pub fn stopped(state: &[u8], i: usize) -> bool
    requires { (i < 8) × (length state.now ≡ 823) }
    ensures { result ≡ (channel_on i (state_of state.now)).stopped }
{
    state[i * audio::CHANNEL_SIZE + audio::CHANNEL_STOPPED] == 1
}

// A channel, all but the ids of its writes.
pub fn head(state: &[u8], i: usize) -> Channel
    requires { (i < 8) × (length state.now ≡ 823) }
    ensures { result ≡ head_in (channel_on i (state_of state.now)) }
{
    let at = i * audio::CHANNEL_SIZE;
    let key = memory::key_at(state, at);
    Channel {
        key,
        prec: state[at + audio::CHANNEL_PRECEDENCE],
        locked: state[at + audio::CHANNEL_LOCKED] == 1,
        stopped: state[at + audio::CHANNEL_STOPPED] == 1,
        writes: state[at + audio::CHANNEL_WRITES],
    }
}

// A channel stored again: where it has no writes, its ids are gone.
pub fn put_head(state: &mut [u8], i: usize, c: Channel)
    requires { (i < 8) × (length state.old ≡ 823) }
    ensures { PutHead state.old i c state.new }
{
    let at = i * audio::CHANNEL_SIZE;
    memory::put_key(state, at, c.key);
    state[at + audio::CHANNEL_PRECEDENCE] = c.prec;
    state[at + audio::CHANNEL_LOCKED] = mark(c.locked);
    state[at + audio::CHANNEL_STOPPED] = mark(c.stopped);
    state[at + audio::CHANNEL_WRITES] = c.writes;
    if c.writes == 0 {
        memory::clear(state, at + 6, 64);
    }
}
