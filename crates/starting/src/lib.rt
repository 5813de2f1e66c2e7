// A fresh device in bytes that the caller lends. Assumes nothing.
#![tactic(auto)]

ghost use Rattle.starting.specs.Starting.{Started};

use image::board::Board;
pub use sizes;

// A fresh device of four or eight channels: 0. Another number of channels, or memory of another size: 1, and nothing moves. A number and no Result: it is
// what C is handed.
#[tactic(auto, using(crate::proofs::Laws::not_sized, crate::proofs::Laws::other_state, crate::proofs::Laws::other_table, crate::proofs::Laws::other_display))]
pub fn fresh(channels: u8, state: &mut [u8], table: &mut [u8], display: &mut [u8]) -> u8
    ensures { Started channels state.old table.old display.old
        result state.new table.new display.new }
{
    if !Board::sized(channels) {
        return 1;
    }
    if state.len() != 823 {
        return 1;
    }
    if table.len() != 1472 {
        return 1;
    }
    if display.len() != 18 {
        return 1;
    }
    let b = Board::fresh(channels);
    encoding::save(b, state);
    let n = table.len();
    memory::clear(table, 0, n);
    memory::clear(display, 0, 18);
    0
}
