// A state without a write, a WAITCYCLE or a waiting request of an id. Assumes nothing.
#![tactic(auto)]

ghost use Rattle.std.specs.Prelude.{◌≡◌, map as each, ◌<◌};
ghost use Rattle.store.specs.Store.{Each};
ghost use Rattle.leaving.specs.Leaving.{Tidy, struck, cleaned, leaving};

use channel::Channel;
pub use granting;
use queue::Queue;
use store::State;

// A queue without an id: no id stands twice, so its first place is its only one.
fn strike(q: Queue, id: u8) -> Queue
    requires { Tidy q }
    ensures { result ≡ struck id q }
{
    match q.find(id) {
        Some(k) => q.remove(k),
        None => q,
    }
}

fn clean(c: Channel, id: u8) -> Channel
    requires { Tidy c.writes }
    ensures { result ≡ cleaned id c }
{
    let q = c.writes;
    let p = strike(q, id);
    c.with_writes(p)
}

fn clean_all(cs: [Channel; 8], id: u8) -> [Channel; 8]
    requires { Each (λ c. Tidy c.writes) cs }
    ensures { result ≡ each (cleaned id) cs }
{
    let mut ds = cs;
    for i in 0..8 {
        let c = ds[i];
        let d = clean(c, id);
        ds[i] = d;
    }
    ds
}

// The id is in no queue of writes, and waits neither for a cycle nor for channels.
pub fn leave(s: State, id: u8) -> State
    requires { Each (λ c. Tidy c.writes) s.channels × Tidy s.waiters × Tidy s.waiting }
    ensures { result ≡ leaving id s }
{
    let cs = s.channels;
    let ds = clean_all(cs, id);
    let v = s.waiters;
    let u = strike(v, id);
    let q = s.waiting;
    let p = strike(q, id);
    let mut t = s;
    t.channels = ds;
    t.waiters = u;
    t.waiting = p;
    t
}
