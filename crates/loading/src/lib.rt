// A state loaded from a text that was saved: document 02, #106. `load` asks nothing: whatever the bytes are, the answer and every byte lent
// are determined (specs/Loading.antt). `qamhudeer` exports it to programs in C. Assumes nothing.
#![tactic(auto)]

ghost use Rattle.image.specs.board.Board.{state_in, Held};
ghost use Rattle.accepting.specs.sound.Sound.{Decides};
ghost use Rattle.loading.specs.Loading.{Fits, Loaded, Loads};

pub use accepting;
pub use accepting::{saved, saving, sound, waiting_list};
pub use encoding;
use image::board::Board;
pub use recounting;

// Whether each memory has its size.
pub fn fits(state: &[u8], table: &[u8], display: &[u8]) -> bool
    ensures { Decides result (Fits state.now table.now display.now) }
{
    state.len() == 823 && table.len() == 1472 && display.len() == 18
}

// What was read from a text of either form, in the memory that is lent: the state, its table, and its display counted once.
pub fn restore(b: Board, read: &[u8], state: &mut [u8], table: &mut [u8], display: &mut [u8])
    requires { Held b read.now × Fits state.old table.old display.old }
    ensures { Loaded (state_in b read.now) 0 state.new table.new display.new }
{
    encoding::save(b, state);
    memory::copy(table, 0, read);
    recounting::recount(b, read, display);
}

// The state of a saved text, its table, and its display counted once: 0. Memory of another size: 1. A text that was not saved of a sound
// state, or another board than that of four channels: 9. After a refusal nothing has moved.
pub fn load(channels: u8, text: &[u8], state: &mut [u8], table: &mut [u8], display: &mut [u8]) -> u8
    ensures { Loads channels text.now state.old table.old display.old
        result state.new table.new display.new }
{
    if !fits(state, table, display) {
        return 1;
    }
    if channels != Board::FOUR {
        return 9;
    }
    let mut read = [0u8; 1472];
    let Some(b) = accepting::accept(text, &mut read) else {
        return 9;
    };
    restore(b, &read, state, table, display);
    0
}
