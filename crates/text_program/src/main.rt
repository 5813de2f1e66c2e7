// The program behind ./arbiter-log --load and ./saved show, which ask it before anything else is read. Its one argument says which texts it
// accepts: 1 is the first form, 4 and 8 are the second form of a board with so many channels. It guesses none: any other word is 1.
// Standard input: a text. Standard output: one line, 'accepted', 'line N' for the first line that is no frame of its kind, or 'no sound
// state'. The wrapper gives the message and the status. What is accepted is said by the crates `accepting` and `accepting2`, and the line
// by the crate `faults`.
#![tactic(auto)]

ghost use Rattle.std.specs.Prelude.{T};
ghost use Rattle.board.specs.Board.{sized};

use accepting2::accepting;
use board::Board;
use std::env::Env;
use std::io::{ErrorKind, Write};

const STDIN: i32 = 0;

const STDOUT: i32 = 1;

// That whoever reads has gone is no failure to be told. Two other programs have these lines too: a crate of their own would have this
// function alone, and no contract can say what is written.
fn say(rt: &HostRuntime, line: &[u8]) {
    if let Err(e) = rt.stdout().write_all(line) {
        if e.kind() != ErrorKind::BrokenPipe {
            let _ = eprintln!(rt; "write: {e}");
        }
    }
}

// That a text of this form is accepted, or why it is not.
fn tell(rt: &HostRuntime, form: u8, text: &[u8], accepted: bool) {
    if accepted {
        say(rt, b"accepted\n");
        return;
    }
    match faults::fault(form, text) {
        None => say(rt, b"no sound state\n"),
        Some(k) => {
            say(rt, b"line ");
            io::print_decimal(STDOUT, k as u64);
            say(rt, b"\n");
        }
    }
}

// Whether a text of the first form is accepted.
fn first(text: &[u8]) -> bool {
    let mut table = [0u8; 1472];
    accepting::accept(text, &mut table).is_some()
}

// The same of the second form, of a board with so many channels.
fn second(width: u8, text: &[u8]) -> bool
    requires { T (sized width) }
{
    let mut table = [0u8; 1472];
    accepting2::accept2(width, text, &mut table).is_some()
}

fn main(rt: HostRuntime) {
    let mut word = [0u8; 2];
    let w = rt.arg(1, &mut word).unwrap_or(0);
    let mut page = io::large_buffer();
    let n = io::read_full(STDIN, &mut page);
    let text = &page[..n];
    match word {
        [b'4', _] if w == 1 => tell(&rt, 2, text, second(Board::FOUR, text)),
        [b'8', _] if w == 1 => tell(&rt, 2, text, second(Board::EIGHT, text)),
        _ => tell(&rt, 1, text, first(text)),
    }
}
