// The table of open keys by itself: document 02, #105, "at most 32 entries, none 0". Assumes nothing.
#![tactic(auto)]

ghost use Rattle.std.specs.Prelude.{◌≡◌};
ghost use Rattle.open_keys.specs.machine.Lists.{all};
ghost use Rattle.open_shape.specs.OpenShape.{is_key, is_none, sound_keys};

use open_keys::Keys;

// Whether every place is 0. All are gathered in one number, which is looked at once: so the compiler reads many at a time.
fn zeros(keys: &[u16]) -> bool
    ensures { result ≡ all is_none keys.now }
{
    let mut all: u16 = 0;
    for key in keys {
        all |= *key;
    }
    all == 0
}

// A key fits its two bytes, so it is one unless it is 0.
fn is_key(k: u16) -> bool
    ensures { result ≡ is_key k }
{
    k != 0
}

pub fn sound(q: Keys) -> bool
    ensures { result ≡ sound_keys q }
{
    if q.n > Keys::ROOM as u8 {
        return false;
    }
    let keys = q.keys;
    let n = q.n as usize;
    keys[..n].iter().all(|k| is_key(*k)) && zeros(&keys[n..])
}
