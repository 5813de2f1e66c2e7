// The list of who waits, of the bytes of a state and a table. `waiting` asks nothing: whatever the bytes are, the answer and every byte
// lent are determined (specs/WaitingList.antt). `qamhudeer` exports it to programs in C. Assumes nothing.
#![tactic(auto)]

ghost use Rattle.waiting_list.specs.WaitingList.{Tells};

pub use decoding;
pub use records;
pub use sizes;
pub use sound;

// The refusal, or 0; how many records stand in front of the list. Bytes and no Result: the program in C gets both numbers as they stand.
#[derive(Clone, Copy)]
pub struct Listed {
    pub error: u8,
    pub count: usize,
}

// A record of four bytes for each waiting request, in order. Bytes that hold no sound state: 1. Room for fewer than 64 records: 5.
// After a refusal the number is 0, and nothing is written.
pub fn waiting(state: &[u8], table: &[u8], list: &mut [u8]) -> Listed
    ensures { Tells state.now table.now list.old result.error result.count list.new }
{
    if !image::whole(state) {
        return Listed { error: 1, count: 0 };
    }
    let b = decoding::load(state);
    if !sound::sound(b, table) {
        return Listed { error: 1, count: 0 };
    }
    if list.len() < audio::RECORDS_SIZE {
        return Listed { error: 5, count: 0 };
    }
    let n = records::fill_front(b, table, list);
    Listed { error: 0, count: n }
}
