// The end of a log over a slow line: what stands in the port is answered as a line. It asks nothing: whatever the bytes are, the answer
// and every byte lent are determined (specs/LastLine.antt). Assumes nothing.
#![tactic(auto)]

ghost use Rattle.last_line.specs.LastLine.{Ends};

use telling::{admitting, port};

// C is handed this, so a refusal is a number: the refusal, or 0; how much output stands in front of the room.
#[derive(Clone, Copy)]
pub struct Ended {
    pub error: u8,
    pub written: usize,
}

// The log has ended: what stands of a last line is answered as a line, and where nothing stands nothing is written.
pub fn feed_end(
    port: &mut [u8],
    state: &mut [u8],
    table: &mut [u8],
    display: &mut [u8],
    out: &mut [u8],
) -> Ended
    ensures { Ends port.old state.old table.old display.old out.old
        result.error result.written port.new state.new table.new display.new out.new }
{
    if let Err(why) = admitting::admit(port, display.len(), out.len()) {
        return Ended {
            error: u8::from(why),
            written: 0,
        };
    }
    let n = port::started(port);
    if n == 0 {
        return Ended {
            error: 0,
            written: 0,
        };
    }
    let last = port::line_in(port);
    port::keep(port, 0, &last);
    let told = telling::answer(&last, n, state, table, display, out);
    Ended {
        error: 0,
        written: told,
    }
}
