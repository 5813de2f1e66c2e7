// The table of open keys, in order of opening: document 02, #105. At most 32, in an array with zeros behind them, so that each list
// of keys has one table (specs/OpenKeys.antt). Assumes nothing.
#![tactic(auto)]

ghost use Rattle.std.specs.Prelude.{◌≡◌, [], ◌∷◌, ◌++◌, ◌≤◌, ◌<◌};
ghost use Rattle.machine.specs.Lists.{among};
ghost use Rattle.machine.specs.Commands.{closed};
ghost use Rattle.open_keys.specs.OpenKeys.{keys_of, keys_in, Tidy, place_of};

pub use machine;
pub use queue;

// The number stands beside the array: the state in C has this layout, in fixed memory.
#[derive(Clone, Copy)]
pub struct Keys {
    pub n: u8,
    pub keys: [u16; Keys::ROOM],
}

impl Keys {
    // "at most 32"
    pub const ROOM: usize = 32;

    pub fn none() -> Self
        ensures { result ≡ keys_of [] }
    {
        let keys = [0u16; Keys::ROOM];
        Keys { n: 0, keys }
    }

    // Where the oldest entry of a key stands, if it has one.
    fn find(self, key: u16) -> Option<usize>
        requires { self.n ≤ 32 }
        ensures { result ≡ place_of key (keys_in self) }
    {
        self.keys[..usize::from(self.n)]
            .iter()
            .position(|k| key == *k)
    }

    // Whether the key has an entry.
    pub fn has(self, key: u16) -> bool
        requires { self.n ≤ 32 }
        ensures { result ≡ among key (keys_in self) }
    {
        self.find(key).is_some()
    }

    // One more entry, behind the others.
    pub fn add(mut self, key: u16) -> Self
        requires { Tidy self × (self.n < 32) }
        ensures { result ≡ keys_of (keys_in self ++ key ∷ []) }
    {
        self.keys[usize::from(self.n)] = key;
        self.n = self.n + 1;
        self
    }

    // Without the oldest entry of the key; as it was where the key has none.
    pub fn close(mut self, key: u16) -> Self
        requires { Tidy self × (self.n ≤ 32) }
        ensures { result ≡ keys_of (closed key (keys_in self)) }
    {
        match self.find(key) {
            Some(at) => {
                queue::close_up(&mut self.keys, at, 0);
                Keys {
                    n: self.n - 1,
                    ..self
                }
            }
            None => self,
        }
    }
}
