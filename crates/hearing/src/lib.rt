// One line of a log on the bytes of a state, a table and a display. `hear` asks nothing: bytes that hold no sound state answer 1 to a frame, and
// nothing moves. Assumes nothing.
#![tactic(auto)]

ghost use Rattle.hearing.specs.Hearing.{Tells};

pub use feeding::unheard;

// How many bytes of output there are.
pub fn hear(
    line: &[u8],
    state: &mut [u8],
    table: &mut [u8],
    display: &mut [u8; audio::DISPLAY_SIZE],
    out: &mut [u8; audio::ROOM_SIZE],
) -> usize
    ensures { Tells line.now state.old table.old display.old out.old
        result state.new table.new display.new out.new }
{
    feeding::feed(state, line, table, display, out)
}
