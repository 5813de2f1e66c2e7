// The program behind ./saved. Standard input: n or o, then a saved text. Standard output: the text in the new form or in the old, or one
// line that says 'refused' and the number. The wrapper checks its words and gives the status. What a text becomes is the crate `moving`'s
// to say; what is read and written is the C library's.
#![tactic(auto)]

ghost use Rattle.std.specs.Prelude.{◌≤◌, length};

use moving::saving::Written;
use moving::saving2;
use std::io::{ErrorKind, Write};

const STDIN: i32 = 0;

// That whoever reads has gone is no failure to be told. Two other programs have these lines too: a crate of their own would have this
// function alone, and no contract can say what is written.
fn say(rt: &HostRuntime, line: &[u8]) {
    if let Err(e) = rt.stdout().write_all(line) {
        if e.kind() != ErrorKind::BrokenPipe {
            let _ = eprintln!(rt; "write: {e}");
        }
    }
}

// The text that stands in front of the page, or the refusal.
fn tell(rt: &HostRuntime, page: &[u8], w: Written)
    requires { w.written ≤ length page.now }
{
    match w.error {
        0 => say(rt, &page[..w.written]),
        12 => say(rt, b"refused 12\n"),
        10 => say(rt, b"refused 10\n"),
        _ => say(rt, b"refused 9\n"),
    }
}

// The longer room takes both forms.
fn main(rt: HostRuntime) {
    let mut text = io::large_buffer();
    let n = io::read_full(STDIN, &mut text);
    if n < 1 {
        return;
    }
    let mut page = [0u8; saving2::LONGEST];
    let w = if text[0] == b'o' {
        moving::to_old(&text[1..n], &mut page)
    } else {
        moving::to_new(&text[1..n], &mut page)
    };
    tell(&rt, &page, w);
}
