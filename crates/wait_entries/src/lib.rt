// The entry of a waiting request. Assumes nothing.
#![tactic(auto)]

ghost use Rattle.std.specs.Prelude.{◌≡◌, ◌+◌, ◌≤◌, ◌<◌, ltb, length, get_or, if◌then◌else◌};
ghost use Rattle.table.specs.memory.Splice.{block};
ghost use Rattle.table.specs.Entry.{wait_entry};
ghost use Rattle.store.specs.machine.Lists.{all};
ghost use Rattle.store.specs.Store.{request_in};
ghost use Rattle.entries.specs.Entries.{same as same_m, wait_test};

pub use open_shape;
use store::State;
use table::memory;

// Whether each combination is at most the highest map.
fn low(combos: &[u8], top: u8) -> bool
    ensures { result ≡ all (λ m. ltb m (top + 1)) combos.now }
{
    combos.iter().all(|map| *map <= top)
}

fn flag(on: bool) -> u8
    ensures { result ≡ (if on then 1 else 0) }
{
    if on { 1 } else { 0 }
}

// Whether the entry, of at most 16 combinations, is that of the waiting request which can be read from it.
fn is_wait(table: &[u8], id: u8) -> bool
    requires { (id < 64) × (length table.now ≡ 1472) × (get_or (block 23 table.now id) 6 0 ≤ 16) }
    ensures value { result ≡ same_m (block 23 table.now id) (wait_entry (request_in table.now id)) }
    ensures range { ((request_in table.now id).key ≤ 65535) × ((request_in table.now id).prec ≤ 255) }
{
    let key = table::key(table, id);
    let mut want = [0u8; 23];
    want[0] = 32;
    want[1] = (key / 256) as u8;
    want[2] = (key % 256) as u8;
    want[4] = table::prec(table, id);
    want[5] = flag(table::impatient(table, id));
    want[6] = table::count(table, id);
    memory::copy(&mut want, 7, table::combos(table, id));
    entries::same(table, id, want)
}

// A waiting request has 1 to 16 combinations, each at most the highest map.
pub fn is_sound_wait(table: &[u8], id: u8, top: u8) -> bool
    requires { (id < 64) × (length table.now ≡ 1472) }
    ensures { result ≡ wait_test (top + 1) table.now id }
{
    let n = table::count(table, id) as usize;
    if n == 0 {
        return false;
    }
    if n > State::COMBOS {
        return false;
    }
    low(table::combos(table, id), top) && is_wait(table, id)
}
