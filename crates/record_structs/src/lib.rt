// The list of who waits as structs, of the bytes of a state and a table, in a slice that the caller lends. `waiting` asks nothing:
// whatever is lent, the answer and every struct are determined (specs/RecordStructs.antt). The byte records are filled first, and
// `waiting` makes structs of them. Assumes nothing.
#![tactic(auto)]

ghost use Rattle.std.specs.Prelude.{◌<◌, ◌≡◌};
ghost use Rattle.record_structs.specs.RecordStructs.{waiter_at, Takes, Filled, Tells};

use image::store::State;
pub use waiting_list;
use waiting_list::Listed;
pub use waiting_list::decoding;

// Room for every request: a list that is shorter is refused.
pub const ROOM: usize = State::REQUESTS as usize;

// A waiting request: its id, its precedence (two's complement), whether it is held, its desk.
#[derive(Clone, Copy)]
pub struct Waiter {
    pub id: u8,
    pub prec: u8,
    pub held: bool,
    pub desk: u8,
}

// How many bytes of records a list of so many structs takes: all, or none.
fn bytes_for(room: usize) -> usize
    ensures { Takes room result }
{
    if room < ROOM { 0 } else { audio::RECORDS_SIZE }
}

// Who waits, for a list that has room for so many structs: the refusal, or 0, with how many they are; their byte records.
fn byte_records(state: &[u8], table: &[u8], room: usize) -> (Listed, [u8; audio::RECORDS_SIZE])
    ensures { Filled state.now table.now room result.0.error result.0.count result.1 }
{
    let mut bytes = [0u8; audio::RECORDS_SIZE];
    let k = bytes_for(room);
    let listed = waiting_list::waiting(state, table, &mut bytes[..k]);
    (listed, bytes)
}

// Record i.
fn at(bytes: &[u8; audio::RECORDS_SIZE], i: usize) -> Waiter
    requires { i < 64 }
    ensures { result ≡ waiter_at bytes.now i }
{
    let k = i * 4;
    Waiter {
        id: bytes[k],
        prec: bytes[k + 1],
        held: bytes[k + 2] == 1,
        desk: bytes[k + 3],
    }
}

// A struct for each waiting request, in order, in front of the list. Bytes that hold no sound state: 1. Room for fewer than 64: 5.
// After a refusal the number is 0. No struct behind the last that waits is written.
pub fn waiting(state: &[u8], table: &[u8], list: &mut [Waiter]) -> Listed
    ensures { Tells state.now table.now list.old result.error result.count list.new }
{
    let (listed, bytes) = byte_records(state, table, list.len());
    for i in 0..listed.count {
        list[i] = at(&bytes, i);
    }
    listed
}

// A list by value, and what `waiting` answered of it.
#[derive(Clone, Copy)]
pub struct Waiters {
    pub listed: Listed,
    pub list: [Waiter; ROOM],
}

// `waiting`, of a list that comes and goes by value and is lent in between.
pub fn in_array(state: &[u8], table: &[u8], mut list: [Waiter; ROOM]) -> Waiters
    ensures { Tells state.now table.now list result.listed.error result.listed.count result.list }
{
    let listed = waiting(state, table, &mut list);
    Waiters { listed, list }
}
