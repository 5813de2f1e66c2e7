// A state loaded from a text of the second form: document 02, #112. `load2` asks nothing: whatever the bytes are, the answer and every byte
// lent are determined (specs/Loading2.antt). `qamhudeer` exports it to programs in C. Assumes nothing.
#![tactic(auto)]

ghost use Rattle.loading2.specs.Loading2.{Loads2};

pub use accepting2::saving2;
pub use image;
use image::board::Board;
pub use loading;
pub use loading::{saving, waiting_list};

// The state of a saved text, its table, and its display counted once: 0. Memory of another size: 1. A text that was not saved of a sound
// state of that board, or no board of four or eight channels: 9. After a refusal nothing has moved.
pub fn load2(
    channels: u8,
    text: &[u8],
    state: &mut [u8],
    table: &mut [u8],
    display: &mut [u8],
) -> u8
    ensures { Loads2 channels text.now state.old table.old display.old
        result state.new table.new display.new }
{
    if !loading::fits(state, table, display) {
        return 1;
    }
    if !Board::sized(channels) {
        return 9;
    }
    let mut read = [0u8; 1472];
    let Some(b) = accepting2::accept2(channels, text, &mut read) else {
        return 9;
    };
    loading::restore(b, &read, state, table, display);
    0
}
