// A saved text moved from one form to the other, in room that the caller lends: document 02, #112. Neither function asks anything:
// whatever the bytes are, the answer and every byte lent are determined (specs/Moving.antt). `qamhudeer` exports both to programs in C.
// Assumes nothing.
#![tactic(auto)]

ghost use Rattle.moving.specs.Moving.{MovesNew, MovesOld};

pub use accepting2::saving2;
use board::Board;
use loading::accepting;
pub use loading::saving;
use loading::saving::Written;

// The text of the first form in the second, with four channels and the numbers counted: 0. No text of the first form: 9. Room that is too
// short: 12. After a refusal the length is 0, and nothing is written.
pub fn to_new(from: &[u8], text: &mut [u8]) -> Written
    ensures { MovesNew from.now text.old result.error result.written text.new }
{
    let mut read = [0u8; 1472];
    let Some(b) = accepting::accept(from, &mut read) else {
        return Written {
            error: 9,
            written: 0,
        };
    };
    let mut page = [0u8; saving2::LONGEST];
    let n = saving2::spell2(b, &read, &mut page);
    saving2::hand_over(&page, n, text)
}

// The text of the second form in the first: 0. No text of either board: 9. One of eight channels, which has no first form: 10. Room that is
// too short: 12. After a refusal the length is 0, and nothing is written.
pub fn to_old(from: &[u8], text: &mut [u8]) -> Written
    ensures { MovesOld from.now text.old result.error result.written text.new }
{
    let mut wide = [0u8; 1472];
    let eight = accepting2::accept2(Board::EIGHT, from, &mut wide);
    if eight.is_some() {
        return Written {
            error: 10,
            written: 0,
        };
    }
    let mut read = [0u8; 1472];
    let Some(b) = accepting2::accept2(Board::FOUR, from, &mut read) else {
        return Written {
            error: 9,
            written: 0,
        };
    };
    let mut page = [0u8; saving::LONGEST];
    let n = saving::spell(b, &read, &mut page);
    saving2::hand_over(&page, n, text)
}
