// The state in the 823 bytes that a caller lends: what stands where (image's specs/Image.antt has the layout), the last key, the number of
// channels, a fresh state. Each function that stores says which bytes it leaves, every one, and which board they hold (specs/Lent.antt).
// Its queues, channels and open keys are changed by lent_queues, lent_channels and lent_opens. Assumes nothing.
#![tactic(auto)]

ghost use Rattle.std.specs.Prelude.{◌≡◌, ◌+◌, ◌*◌, ◌<◌, length};
ghost use Rattle.image.specs.Image.{state_of};
ghost use Rattle.lent.specs.Lent.{PutLast, PutFresh};

// The places, as the header has them.

pub const LOCKS: usize = 560;

pub const WAITERS: usize = 625;

pub const WAITING: usize = 690;

pub const OPENS: usize = 755;

// The first open key stands behind their number.
pub const OPEN_KEYS: usize = 756;

pub const LAST: usize = 820;

pub const WIDTH: usize = 822;

// The place of the writes of channel i.
pub fn writes(i: usize) -> usize
    requires { i < 8 }
    ensures { result ≡ i * 70 + 5 }
{
    i * audio::CHANNEL_SIZE + audio::CHANNEL_WRITES
}

pub fn last(state: &[u8]) -> u16
    requires { length state.now ≡ 823 }
    ensures { result ≡ (state_of state.now).state.last }
{
    memory::key_at(state, LAST)
}

pub fn set_last(state: &mut [u8], key: u16)
    requires { length state.old ≡ 823 }
    ensures { PutLast state.old key state.new }
{
    memory::put_key(state, LAST, key);
}

// How many channels the board has.
pub fn width(state: &[u8]) -> u8
    requires { length state.now ≡ 823 }
    ensures { result ≡ (state_of state.now).width }
{
    state[WIDTH]
}

pub fn fresh(state: &mut [u8], width: u8)
    requires { length state.old ≡ 823 }
    ensures { PutFresh width state.new }
{
    memory::clear(state, 0, audio::STATE_SIZE);
    for i in 0..8 {
        state[i * audio::CHANNEL_SIZE + audio::CHANNEL_PRECEDENCE] = 128;
    }
    state[WIDTH] = width;
}
