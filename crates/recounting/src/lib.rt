// The wall display of a state that was loaded: its numbers counted once, the looks 0. A fresh state's are all 0, so they are those of a
// fresh display corrected to the state. Assumes nothing.
#![tactic(auto)]

ghost use Rattle.std.specs.Prelude.{◌≡◌, map, length};
ghost use Rattle.queue.specs.Queue.{list_of};
ghost use Rattle.board.specs.store.Store.{request_in};
ghost use Rattle.waiting.specs.Waiting.{Readable};
ghost use Rattle.correcting.specs.lanes.Lanes.{weights};
ghost use Rattle.board.specs.Board.{state_in, Held};
ghost use Rattle.recounting.specs.Recounting.{counted};

use board::Board;
use board::store::State;
use correcting::lanes;
use queue::Queue;
use table::memory;

// The words of all who wait, added up: in each lane how many name its channel.
fn words_of(q: Queue, table: &[u8]) -> u64
    requires { Readable q table.now }
    ensures { result ≡ weights (map (request_in table.now) (list_of q)) }
{
    let n = q.n as usize;
    let mut all: u64 = 0;
    for id in &q.ids[..n] {
        all += lanes::word(table::combos(table, *id));
    }
    all
}

pub fn recount(b: Board, table: &[u8], display: &mut [u8])
    requires { Held b table.now × (length display.old ≡ 18) }
    ensures { display.new ≡ counted (state_in b table.now) }
{
    let fresh = State::fresh();
    let s = b.state;
    let waiting = words_of(s.waiting, table);
    memory::clear(display, 0, 18);
    correcting::show(display, fresh, s, 0, waiting, 0);
}
