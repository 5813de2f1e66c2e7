// The eleven queues of a state, in the bytes that a caller lends. A queue at `at` is its number and 64 ids. Each function that stores says
// which bytes it leaves, every one, and which board they hold (specs/Lent.antt of crate `lent`). Assumes nothing.
#![tactic(auto)]

ghost use Rattle.std.specs.Prelude.{◌≡◌, [], ◌+◌, ◌≤◌, ◌<◌, length, get_or};
ghost use Rattle.queue.specs.Queue.{queue_of, list_of, pushed, inserted, removed, place_of};
ghost use Rattle.image.specs.Image.{queue_at};
ghost use Rattle.lent.specs.Lent.{Tidy, without, PutQueue};
ghost use Rattle.lent_queues.specs.Moves.{shut, spread};

pub use lent;

// How many ids the queue at `at` has.
pub fn count(state: &[u8], at: usize) -> usize
    requires { at < length state.now }
    ensures { result ≡ (queue_at state.now at).n }
{
    usize::from(state[at])
}

// Its id at place k.
pub fn id_at(state: &[u8], at: usize, k: usize) -> u8
    requires { (at + 65 ≤ length state.now) × (k < 64) }
    ensures { result ≡ get_or (queue_at state.now at).ids k 0 }
{
    state[at + 1 + k]
}

// Its ids, front first.
fn ids(state: &[u8], at: usize) -> &[u8]
    requires { (at + 65 ≤ length state.now) × (get_or state.now at 0 ≤ 64) }
    ensures { result.now ≡ list_of (queue_at state.now at) }
{
    &state[at + 1..at + 1 + usize::from(state[at])]
}

// Where an id first stands in it, if it is among them.
pub fn find(state: &[u8], at: usize, id: u8) -> Option<usize>
    requires { (at + 65 ≤ length state.now) × (get_or state.now at 0 ≤ 64) }
    ensures { result ≡ place_of id (list_of (queue_at state.now at)) }
{
    ids(state, at).iter().position(|x| *x == id)
}

pub fn empty(state: &mut [u8], at: usize)
    requires { at + 65 ≤ length state.old }
    ensures { PutQueue state.old at (λ q. queue_of []) state.new }
{
    memory::clear(state, at, audio::QUEUE_SIZE);
}

// One more id, at the back of the queue at `at`.
pub fn push(state: &mut [u8], at: usize, id: u8)
    requires { (at + 65 ≤ length state.old) × (get_or state.old at 0 < 64) }
    ensures { PutQueue state.old at (λ q. pushed q id) state.new }
{
    let n = state[at];
    let k = at + 1 + usize::from(n);
    state[k] = id;
    state[at] = n + 1;
}

// The bytes from `lo` on move one place up, to `hi`, which is lost; `id` stands at `lo`.
fn make_room(list: &mut [u8], lo: usize, hi: usize, id: u8)
    requires { (lo ≤ hi) × (hi < length list.old) }
    ensures { list.new ≡ spread list.old lo id hi }
{
    list[lo..hi + 1].rotate_right(1);
    list[lo] = id;
}

// The bytes behind `lo` move one place down, up to `hi`, and a 0 stands before `hi`.
pub fn close_up(list: &mut [u8], lo: usize, hi: usize)
    requires { (lo < hi) × (hi ≤ length list.old) }
    ensures { list.new ≡ shut list.old lo hi }
{
    list[lo] = 0;
    list[lo..hi].rotate_left(1);
}

// One more id, at place k; what stands there and behind it moves back.
pub fn insert(state: &mut [u8], at: usize, k: usize, id: u8)
    requires { (at + 65 ≤ length state.old) × Tidy (queue_at state.old at) × (k ≤ get_or state.old at 0)
        × (get_or state.old at 0 < 64) }
    ensures { PutQueue state.old at (λ q. inserted q k id) state.new }
{
    let n = state[at];
    let first = at + 1;
    make_room(state, first + k, first + usize::from(n), id);
    state[at] = n + 1;
}

// Without the id at place k.
pub fn remove(state: &mut [u8], at: usize, k: usize)
    requires { (at + 65 ≤ length state.old) × Tidy (queue_at state.old at) × (k < get_or state.old at 0)
        × (get_or state.old at 0 ≤ 64) }
    ensures { PutQueue state.old at (λ q. removed q k) state.new }
{
    let n = state[at];
    let first = at + 1;
    close_up(state, first + k, first + usize::from(n));
    state[at] = n - 1;
}

// Without the first of an id, where it is among them.
pub fn strike(state: &mut [u8], at: usize, id: u8)
    requires { (at + 65 ≤ length state.old) × Tidy (queue_at state.old at) × (get_or state.old at 0 ≤ 64) }
    ensures { PutQueue state.old at (λ q. without id q) state.new }
{
    match find(state, at, id) {
        Some(k) => remove(state, at, k),
        None => {}
    }
}
