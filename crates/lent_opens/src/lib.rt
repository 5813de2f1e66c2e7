// The open keys of a state, in the bytes that a caller lends: their number, then 32 keys of two bytes. Each function that stores says which
// bytes it leaves, every one, and which board they hold (specs/Lent.antt of crate `lent`). Assumes nothing.
#![tactic(auto)]

ghost use Rattle.std.specs.Prelude.{◌≡◌, [], ◌∷◌, ◌++◌, ◌≤◌, ◌<◌, length, get_or};
ghost use Rattle.machine.specs.Lists.{among};
ghost use Rattle.machine.specs.Commands.{closed};
ghost use Rattle.open_keys.specs.OpenKeys.{keys_of, keys_in, Tidy as TidyKeys, place_of};
ghost use Rattle.image.specs.Image.{open_at, state_of};
ghost use Rattle.lent_queues.specs.lent.Lent.{PutOpens};

use lent_queues::close_up;
use lent_queues::lent::{OPEN_KEYS, OPENS};

// Where a key first stands among the open ones, if it is one of them.
fn open_place(state: &[u8], key: u16) -> Option<usize>
    requires { (length state.now ≡ 823) × (get_or state.now 755 0 ≤ 32) }
    ensures { result ≡ place_of key (keys_in (open_at state.now 755)) }
{
    let n = usize::from(state[OPENS]);
    for i in 0..n {
        let k = memory::key_at(state, OPEN_KEYS + 2 * i);
        if k == key {
            return Some(i);
        }
    }
    None
}

pub fn has_open(state: &[u8], key: u16) -> bool
    requires { (length state.now ≡ 823) × ((state_of state.now).state.opens.n ≤ 32) }
    ensures { result ≡ among key (keys_in (state_of state.now).state.opens) }
{
    open_place(state, key).is_some()
}

// One more open key, behind the others.
pub fn add_open(state: &mut [u8], key: u16)
    requires { (length state.old ≡ 823) × TidyKeys (state_of state.old).state.opens
        × ((state_of state.old).state.opens.n < 32) }
    ensures { PutOpens state.old (λ q. keys_of (keys_in q ++ key ∷ [])) state.new }
{
    let n = state[OPENS];
    memory::put_key(state, OPEN_KEYS + 2 * usize::from(n), key);
    state[OPENS] = n + 1;
}

// Without the oldest entry of the key; as it was where the key has none.
pub fn close_open(state: &mut [u8], key: u16)
    requires { (length state.old ≡ 823) × TidyKeys (state_of state.old).state.opens
        × ((state_of state.old).state.opens.n ≤ 32) }
    ensures { PutOpens state.old (λ q. keys_of (closed key (keys_in q))) state.new }
{
    match open_place(state, key) {
        Some(k) => {
            let n = state[OPENS];
            let lo = OPEN_KEYS + 2 * k;
            let hi = OPEN_KEYS + 2 * usize::from(n);
            close_up(state, lo, hi);
            close_up(state, lo, hi);
            state[OPENS] = n - 1;
        }
        None => {}
    }
}
