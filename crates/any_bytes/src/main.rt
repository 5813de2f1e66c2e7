// Plays the trials of standard input through `arbiter::call`, and says of each what came of it. Assumes nothing.
//
// A line has words, a space apart, each a sign and the bytes that it spells, and then the trial's name. Bytes left out are 0. A letter
// changes what the call is given:
//   N n                   a fresh device of n channels; 0, or left out, is four
//   B id k b              byte k of the id's entry in the table; id 64 stands behind the 64 that are lent
//   C i key prec l s      the numbers of channel i: key (two bytes), precedence, lock mark, stop mark
//   W i n k id            the writes of channel i (the locks at 8, the WAITCYCLEs at 9, the waiting requests at 10): their count,
//                         and the id at place k
//   O n k key             the open keys: their count, and the key at place k (two bytes)
//   T n, R n              how many bytes of the table and of the reply list are lent (three bytes)
//   Z n                   so many combinations 0, in the place of the frame's (three bytes)
// The last word is the call, a frame as in the log but without its length:
//   = frame               the next line starts from what the call left
//   ! frame               the next line starts from where this one did
// A line that begins with # is a remark.
//
// It writes the name, the answer and the replies as the log has them, and what has moved: the state, the table, or the reply list
// beyond the replies. These are compared with copies made before the call.
#![tactic(auto)]

mod same;
mod scene;
mod terms;

use scene::Scene;

// Where the last line left off, where this one is, and what is next to be read.
#[derive(Drop)]
struct Stage {
    kept: Scene,
    now: Scene,
    next: usize,
}

fn change(p: Stage, text: &[u8], sign: u8, from: usize) -> Stage {
    let mut w = [0u8; 8];
    terms::spell(text, from, &mut w);
    let kept = p.kept;
    let s = p.now;
    let now = s.changed(sign, &w);
    let next = terms::after(text, terms::find(text, from, b' '));
    Stage { kept, now, next }
}

// The array's type has its length, so that nothing is to be proved of it.
fn made(s: Scene, text: &[u8], from: usize, w: &mut [u8; 1000007]) -> Scene {
    let n = terms::spell(text, from, w);
    s.call(w, s.length(n))
}

fn call(p: Stage, text: &[u8], sign: u8, from: usize) -> Stage {
    let end = terms::find(text, from, b'\n');
    let name = terms::after(text, terms::find(text, from, b' '));
    show::text(terms::part(text, name, end));
    let mut w = [0u8; 1000007];
    let s = p.now;
    let t = made(s, text, from, &mut w);
    let kept = if sign == b'=' { t } else { p.kept };
    Stage {
        kept,
        now: kept,
        next: terms::after(text, end),
    }
}

// A word, or the rest of the line from the call on.
fn step(p: Stage, text: &[u8]) -> Stage {
    let sign = terms::at(text, p.next);
    let from = terms::after(text, p.next);
    if sign == b'=' || sign == b'!' {
        return call(p, text, sign, from);
    }
    if sign > 64 {
        return change(p, text, sign, from);
    }
    let kept = p.kept;
    Stage {
        kept,
        now: kept,
        next: terms::after(text, terms::find(text, p.next, b'\n')),
    }
}

fn play_all(text: &[u8]) {
    let s = Scene::new(0);
    let mut p = Stage {
        kept: s,
        now: s,
        next: 0,
    };
    for _ in 0..text.len() {
        if p.next >= text.len() {
            return;
        }
        p = step(p, text);
    }
}

fn main() {
    let mut buffer = io::large_buffer();
    let n = io::read_full(0, &mut buffer);
    play_all(&buffer[..n]);
}
