// A log over a slow line: fed a fragment at a time, of any length, in the memory of one line. State, table, display, port and room are
// bytes that the caller keeps and lends; nothing is kept here. A call answers one line at most. It asks nothing: whatever the bytes are, the
// answer and every byte lent are determined (specs/Fragments.antt). The end of the log is `last_line`'s. Assumes nothing.
#![tactic(auto)]

ghost use Rattle.fragments.specs.Fragments.{Feeds};

pub use telling;
pub use telling::{admitting, hearing, port, unheard};

// C is handed this, so a refusal is a number: the refusal, or 0; how much of the fragment is used; how much output stands in front
// of the room.
#[derive(Clone, Copy)]
pub struct Fed {
    pub error: u8,
    pub used: usize,
    pub written: usize,
}

// The fragment up to its first LF, or all of it. Where the line has ended it is answered.
pub fn feed(
    fragment: &[u8],
    port: &mut [u8],
    state: &mut [u8],
    table: &mut [u8],
    display: &mut [u8],
    out: &mut [u8],
) -> Fed
    ensures { Feeds fragment.now port.old state.old table.old display.old out.old
        result.error result.used result.written port.new state.new table.new display.new out.new }
{
    if let Err(why) = admitting::admit(port, display.len(), out.len()) {
        return Fed {
            error: u8::from(why),
            used: 0,
            written: 0,
        };
    }
    let n = port::started(port);
    let mut line = port::line_in(port);
    let g = gathering::gather(&mut line, n, fragment);
    let k = g.n;
    let used = g.used;
    if !g.ended {
        port::keep(port, k, &line);
        return Fed {
            error: 0,
            used,
            written: 0,
        };
    }
    port::keep(port, 0, &line);
    let written = telling::answer(&line, k, state, table, display, out);
    Fed {
        error: 0,
        used,
        written,
    }
}
