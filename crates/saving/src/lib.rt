// A state saved as a text, in room that the caller lends: document 02, #106. `save` asks nothing: whatever the bytes are, the answer and
// every byte lent are determined (specs/Saving.antt). `qamhudeer` exports it to programs in C. Assumes nothing.
#![tactic(auto)]

ghost use Rattle.std.specs.Prelude.{◌≡◌, length};
ghost use Rattle.hex_lines.specs.HexLines.{Put};
ghost use Rattle.image.specs.board.Board.{state_in, Held};
ghost use Rattle.saved_lines.specs.saved.Saved.{text as text_of};
ghost use Rattle.saving.specs.Saving.{TEXT, Saves};

use image::board::Board;
pub use saved_lines;
pub use waiting_list;
pub use waiting_list::{decoding, sizes, sound};

// The refusal, or 0; how long the text is. No Result: `qamhudeer` hands both numbers to C, after a refusal too.
#[derive(Clone, Copy)]
pub struct Written {
    pub error: u8,
    pub written: usize,
}

// No text of four channels is longer.
pub const LONGEST: usize = 3344;

// Room for every text.
pub fn text_size() -> usize
    ensures { result ≡ TEXT }
{
    LONGEST
}

// The text of a board of four channels, in front of the page; how long it is.
pub fn spell(b: Board, table: &[u8], page: &mut [u8]) -> usize
    requires { Held b table.now × (b.width ≡ 4) × (length page.old ≡ 3344) }
    ensures { Put page.old 0 (text_of (state_in b table.now)) result page.new }
{
    memory::copy(page, 0, b"D001\n");
    saved_lines::put_frames(page, 5, b, table)
}

// Bytes that hold no sound state: 1. Eight channels, which have no text of this form: 10. Room that is too short: 12. After a refusal
// the length is 0, and nothing is written.
pub fn save(state: &[u8], table: &[u8], text: &mut [u8]) -> Written
    ensures { Saves state.now table.now text.old result.error result.written text.new }
{
    if !image::whole(state) {
        return Written {
            error: 1,
            written: 0,
        };
    }
    let b = decoding::load(state);
    if !sound::sound(b, table) {
        return Written {
            error: 1,
            written: 0,
        };
    }
    if b.width != Board::FOUR {
        return Written {
            error: 10,
            written: 0,
        };
    }
    let mut page = [0u8; LONGEST];
    let n = spell(b, table, &mut page);
    if n > text.len() {
        return Written {
            error: 12,
            written: 0,
        };
    }
    memory::copy(text, 0, &page[..n]);
    Written {
        error: 0,
        written: n,
    }
}
