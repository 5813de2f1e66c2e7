// A state saved as a text of the second form, in room that the caller lends: document 02, #112. `save2` asks nothing: whatever the bytes
// are, the answer and every byte lent are determined (specs/Saving2.antt). `qamhudeer` exports it to programs in C. Assumes nothing.
#![tactic(auto)]

ghost use Rattle.std.specs.Prelude.{◌≡◌, ◌≤◌, length, take};
ghost use Rattle.number_lines.specs.hex_lines.HexLines.{Put};
ghost use Rattle.accepting.specs.sound.Sound.{Decides};
ghost use Rattle.image.specs.board.Board.{state_in, Held};
ghost use Rattle.number_lines.specs.saved2.Saved2.{text2};
ghost use Rattle.saving2.specs.Saving2.{TEXT2, Fills, Agrees, Saves2};

pub use accepting;
use accepting::saving::Written;
use accepting::{decoding, saved_lines};
pub use accepting::{saving, sound};
use image::board::Board;
use number_lines::hex_lines;
pub use recounting;

// No text of eight channels is longer.
pub const LONGEST: usize = 3521;

// Room for every text of the second form.
pub fn text2_size() -> usize
    ensures { result ≡ TEXT2 }
{
    LONGEST
}

// The text of a board, in front of the page; how long it is.
pub fn spell2(b: Board, table: &[u8], page: &mut [u8]) -> usize
    requires { Held b table.now × (length page.old ≡ 3521) }
    ensures { Put page.old 0 (text2 (state_in b table.now)) result page.new }
{
    let mut counted = [0u8; 18];
    recounting::recount(b, table, &mut counted);
    let head = [0xD8u8];
    let tail = [b.width];
    let w = b.width as usize;
    memory::copy(page, 0, b"D002\n");
    let p = hex_lines::put_line(page, 5, &head, &tail);
    let p = saved_lines::put_frames(page, p, b, table);
    number_lines::put_numbers(page, p, w, &counted)
}

// Whether the numbers of a display agree with a count over the state.
fn agrees(b: Board, table: &[u8], display: &[u8]) -> bool
    requires { Held b table.now }
    ensures { Decides result (Agrees display.now (state_in b table.now)) }
{
    if display.len() != 18 {
        return false;
    }
    let mut counted = [0u8; 18];
    recounting::recount(b, table, &mut counted);
    accepting::same(&display[..16], &counted[..16])
}

// The first n bytes of a page, in room that is lent: 12 where they do not fit, and then nothing is written.
pub fn hand_over(page: &[u8], n: usize, text: &mut [u8]) -> Written
    requires { n ≤ length page.now }
    ensures { Fills (take n page.now) text.old result.error result.written text.new }
{
    if n > text.len() {
        return Written {
            error: 12,
            written: 0,
        };
    }
    memory::copy(text, 0, &page[..n]);
    Written {
        error: 0,
        written: n,
    }
}

// Bytes that hold no sound state, or a display that is no count over it: 1. Room that is too short: 12. After a refusal the length is 0,
// and nothing is written.
pub fn save2(state: &[u8], table: &[u8], display: &[u8], text: &mut [u8]) -> Written
    ensures { Saves2 state.now table.now display.now text.old result.error result.written text.new }
{
    if !image::whole(state) {
        return Written {
            error: 1,
            written: 0,
        };
    }
    let b = decoding::load(state);
    if !sound::sound(b, table) {
        return Written {
            error: 1,
            written: 0,
        };
    }
    if !agrees(b, table, display) {
        return Written {
            error: 1,
            written: 0,
        };
    }
    let mut page = [0u8; LONGEST];
    let n = spell2(b, table, &mut page);
    hand_over(&page, n, text)
}
