// The entry of a lock, or of a WAITCYCLE. Assumes nothing.
#![tactic(auto)]

ghost use Rattle.std.specs.Prelude.{◌≡◌, not, ◌&&◌, map as each, ℕ, ◌<◌, eqb, length};
ghost use Rattle.table.specs.memory.Splice.{block};
ghost use Rattle.queue.specs.Queue.{list_of};
ghost use Rattle.channel.specs.Channel.{channel_in};
ghost use Rattle.table.specs.Entry.{span_entry};
ghost use Rattle.store.specs.machine.Maps.{named};
ghost use Rattle.store.specs.machine.State.{Write};
ghost use Rattle.store.specs.Store.{lock_in};
ghost use Rattle.entries.specs.Entries.{same as same_m, lock_test, waiter_test};

use channel::Channel;
pub use entries;
pub use shapes;
pub use store;

// Whether the entry is that of the lock, or of the WAITCYCLE, which can be read from it: `command` says which.
fn is_span(table: &[u8], id: u8, command: u8) -> bool
    requires { (id < 64) × (length table.now ≡ 1472) }
    ensures { result ≡ same_m (block 23 table.now id) (span_entry command (lock_in table.now id)) }
{
    let key = table::key(table, id);
    let mut want = [0u8; 23];
    want[0] = command;
    want[1] = (key / 256) as u8;
    want[2] = (key % 256) as u8;
    want[3] = table::map(table, id);
    entries::same(table, id, want)
}

fn owned(c: Channel, key: u16) -> bool
    ensures { result ≡ (c.locked && eqb c.key key) }
{
    c.locked && c.key == key
}

// Whether each channel that the map names is locked and has the key.
fn locked(cs: [Channel; 8], key: u16, map: u8) -> bool
    ensures { (f : ℕ → Write) → result ≡ named (λ c. c.locked && eqb c.key key) map (each (channel_in f) cs) }
{
    for (i, c) in cs.iter().enumerate() {
        if channel::names(map, i) && !owned(*c, key) {
            return false;
        }
    }
    true
}

// A lock names channels, all of them locked and with its key, which is not 0. So it names none behind the board's own.
pub fn is_sound_lock(cs: [Channel; 8], table: &[u8], id: u8) -> bool
    requires { (id < 64) × (length table.now ≡ 1472) }
    ensures { result ≡ lock_test cs table.now id }
{
    let key = table::key(table, id);
    let map = table::map(table, id);
    // Returns one by one: joined by &&, each test is a value of two cases in the proof, which is then longer.
    if map == 0 {
        return false;
    }
    if key == 0 {
        return false;
    }
    locked(cs, key, map) && is_span(table, id, 13)
}

// Whether the channel has the key, and a write.
fn writes_for(c: Channel, key: u16) -> bool
    ensures { result ≡ (eqb c.key key && not (eqb (length (list_of c.writes)) 0)) }
{
    let q = c.writes;
    c.key == key && q.n != 0
}

// A WAITCYCLE names one channel, which has its key and a write.
pub fn is_sound_waiter(cs: [Channel; 8], table: &[u8], id: u8) -> bool
    requires { (id < 64) × (length table.now ≡ 1472) }
    ensures { result ≡ waiter_test cs table.now id }
{
    let key = table::key(table, id);
    let map = table::map(table, id);
    let i = channel::lowest(map);
    // Returns one by one: the second test and the channel stand only for a place below 8.
    if 8 <= i {
        return false;
    }
    if map != 1 << i {
        return false;
    }
    let c = cs[i];
    writes_for(c, key) && is_span(table, id, 14)
}
