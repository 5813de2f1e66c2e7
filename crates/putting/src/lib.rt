// A line's output put on a lent page, behind what stands there, then what is shown of the board. Assumes nothing.
#![tactic(auto)]

ghost use Rattle.std.specs.Prelude.{◌+◌, ◌≤◌, ◌≡◌, [], length, if◌then◌else◌};
ghost use Rattle.image.specs.board.Board.{state_in, Held};
ghost use Rattle.taking.specs.channel_lines.ChannelLines.{board_lines};
ghost use Rattle.display.specs.Display.{display_lines};
ghost use Rattle.image.specs.Image.{state_of, Whole};
ghost use Rattle.taking.specs.Desk.{taken_in, needed};
ghost use Rattle.putting.specs.Putting.{Adds, Puts};

pub use display_lines;
use display_lines::record_structs::{ROOM, Waiter};
use display_lines::{decoding, record_structs};
pub use gathering;
pub use taking;
pub use taking::{channel_lines, serving};
use taking::{Left, Show};

// The channels' lines behind the first `at` bytes of the page, where they are shown; how many bytes then stand.
fn put_channels(show: bool, state: &[u8], page: &mut [u8], at: usize) -> usize
    requires { Whole state.now × (length (state_of state.now).state.channels ≡ 8)
        × (at + (if show then 120 else 0) ≤ length page.old) }
    ensures { Adds page.old at (if show then board_lines (state_of state.now) else []) result
        page.new }
{
    if !show {
        return at;
    }
    let s = decoding::load(state);
    let mut board = [0u8; 120];
    let k = channel_lines::channels(s, &mut board);
    memory::copy(page, at, &board[..k]);
    at + k
}

// The lines of the display, likewise.
fn put_display(
    show: bool,
    state: &[u8],
    table: &[u8],
    display: &[u8; audio::DISPLAY_SIZE],
    page: &mut [u8],
    at: usize,
) -> usize
    requires { Whole state.now × Held (state_of state.now) table.now
        × (at + (if show then 743 else 0) ≤ length page.old) }
    ensures { Adds page.old at (if show then display_lines
        (state_in (state_of state.now) table.now) display.now else []) result page.new }
{
    if !show {
        return at;
    }
    let width = lent::width(state);
    let none = Waiter {
        id: 0,
        prec: 0,
        held: false,
        desk: 0,
    };
    let w = record_structs::in_array(state, table, [none; ROOM]);
    let listed = w.listed;
    let list = w.list;
    let mut text = [0u8; 743];
    let k = display_lines::spell(width, display, list, listed.count, &mut text);
    memory::copy(page, at, &text[..k]);
    at + k
}

// A line's output behind what stands on the page, then what is shown. Every line has an answer, so no output is no line: then
// nothing is put.
pub fn put(
    show: Show,
    state: &[u8],
    t: Left,
    table: &[u8],
    display: &[u8; audio::DISPLAY_SIZE],
    out: &[u8],
    page: &mut [u8],
    at: usize,
) -> Left
    requires { Whole state.now × (t.at ≤ 973) × (length out.now ≡ 973) × Held (state_of state.now) table.now
        × (at + needed show ≤ length page.old) }
    ensures { Puts show (taken_in state.now t) table.now display.now out.now
        page.old at (taken_in state.now result) page.new }
{
    let n = t.at;
    if n == 0 {
        return Left {
            line: t.line,
            used: t.used,
            at,
        };
    }
    memory::copy(page, at, &out[..n]);
    let k = put_channels(show.channels, state, page, at + n);
    let e = put_display(show.display, state, table, display, page, k);
    Left {
        line: t.line,
        used: t.used,
        at: e,
    }
}
