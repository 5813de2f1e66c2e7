// The state by value, with eight channels; the table of requests is lent beside it. specs/Store.antt says which struct and which
// table stand for a state of the machine. A board of four keeps the channels behind its own free (crate `board`): nothing here and
// nothing below the call reads how many a board has. Assumes nothing.
#![tactic(auto)]

ghost use Rattle.std.specs.Prelude.{◌≡◌, set, ◌<◌};
ghost use Rattle.open_keys.specs.machine.State.{fresh_on};
ghost use Rattle.store.specs.Store.{struct_of};

use channel::Channel;
use open_keys::Keys;
pub use open_keys::machine;
use open_keys::queue::Queue;
pub use reply;
use table::Head;

#[derive(Clone, Copy)]
pub struct State {
    pub channels: [Channel; 8],
    pub locks: Queue,
    pub waiters: Queue,
    pub waiting: Queue,
    pub opens: Keys,
    pub last: u16,
}

// The state so far, and how many replies there are.
#[derive(Clone, Copy)]
pub struct Progress {
    pub state: State,
    pub n: usize,
}

impl State {
    // How many requests the table has, how many combinations a list may have, how many keys may be open, and the map of all eight channels. A board's highest
    // map is the board's to say.
    pub const REQUESTS: u8 = Queue::ROOM as u8;

    pub const COMBOS: usize = Head::COMBOS;

    pub const OPENS: u8 = Keys::ROOM as u8;

    pub const TOP: u8 = 255;

    pub fn fresh() -> Self
        ensures { result ≡ struct_of (fresh_on 8) }
    {
        let c = Channel::unused();
        let cs = [c, c, c, c, c, c, c, c];
        let q = Queue::empty();
        State {
            channels: cs,
            locks: q,
            waiters: q,
            waiting: q,
            opens: Keys::none(),
            last: 0,
        }
    }
}
