// The answer to a line, at the front of a room that the caller lends; and what a call on a port promises, whichever line it answers.
// Assumes nothing.
#![tactic(auto)]

ghost use Rattle.std.specs.Prelude.{◌≡◌, ◌≤◌, length};
ghost use Rattle.telling.specs.Telling.{Says};

pub use admitting;
pub use admitting::port;
pub use hearing;
pub use hearing::unheard;

// The first n bytes of the line, as a line.
pub fn answer(
    line: &[u8],
    n: usize,
    state: &mut [u8],
    table: &mut [u8],
    display: &mut [u8],
    out: &mut [u8],
) -> usize
    requires { (n ≤ length line.now) × (length display.old ≡ 18) × (973 ≤ length out.old) }
    ensures { Says line.now n state.old table.old display.old out.old
        result state.new table.new display.new out.new }
{
    let mut text = [0u8; 973];
    let mut shown = display_bytes::read(display);
    let k = hearing::hear(&line[..n], state, table, &mut shown, &mut text);
    display_bytes::write(display, &shown);
    pouring::pour(&text, k, out);
    k
}
