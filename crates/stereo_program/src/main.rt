// The program behind ./stereo. Standard input: pairs of hexadecimal digits, 00 to make a list or 01 to check one, the left number,
// the right number, and the maps to check. Standard output: one line. The wrapper checks its words and gives the status.
// What is made and accepted is the crate `stereo`'s; what is read and written is the C library's to say.
#![tactic(auto)]

ghost use Rattle.std.specs.Prelude.{◌≤◌, length};

use std::io::{ErrorKind, Write};

const STDIN: i32 = 0;

// The value of a digit; 0 for any other byte. `to_digit` would take small letters too.
fn digit(b: u8) -> u8 {
    match b {
        b'0'..=b'9' => b - b'0',
        b'A'..=b'F' => b - b'A' + 10,
        _ => 0,
    }
}

fn letter(n: u8) -> u8 {
    b"0123456789ABCDEF"[usize::from(n % 16)]
}

// The byte of two digits.
fn pair(high: u8, low: u8) -> u8 {
    (digit(high) % 16) * 16 + digit(low) % 16
}

// That whoever reads has gone is no failure to be told. Two other programs have these lines too: a crate of their own would have this
// function alone, and no contract can say what is written.
fn say(rt: &HostRuntime, line: &[u8]) {
    if let Err(e) = rt.stdout().write_all(line) {
        if e.kind() != ErrorKind::BrokenPipe {
            let _ = eprintln!(rt; "write: {e}");
        }
    }
}

// The maps of a text of digits, behind the wish; no more of them than there is room for.
fn maps_of(text: &[u8], maps: &mut [u8]) -> usize
    ensures { result ≤ length maps.new }
{
    let n = maps.len().min(text.len().saturating_sub(6) / 2);
    for i in 0..n {
        maps[i] = pair(text[6 + 2 * i], text[7 + 2 * i]);
    }
    n
}

// The verdict on the first n maps.
fn judge(rt: &HostRuntime, left: u8, right: u8, maps: &[u8], n: usize)
    requires { n ≤ length maps.now }
{
    if stereo::accepts(left, right, &maps[..n]) {
        say(rt, b"accepted\n");
    } else {
        say(rt, b"not accepted\n");
    }
}

fn check(rt: &HostRuntime, left: u8, right: u8, text: &[u8]) {
    let mut maps = io::large_buffer();
    let n = maps_of(text, &mut maps);
    judge(rt, left, right, &maps, n);
}

// No wish has another number of maps than 1, 2 or 4.
fn make(rt: &HostRuntime, left: u8, right: u8) {
    let mut maps = [0u8; 4];
    let made = stereo::make(left, right, &mut maps);
    if made.error != 0 {
        say(rt, b"refused 11\n");
        return;
    }
    let line = [
        letter(maps[0] / 16),
        letter(maps[0]),
        letter(maps[1] / 16),
        letter(maps[1]),
        letter(maps[2] / 16),
        letter(maps[2]),
        letter(maps[3] / 16),
        letter(maps[3]),
    ];
    if made.count == 1 {
        say(rt, &line[..2]);
    } else if made.count == 2 {
        say(rt, &line[..4]);
    } else {
        say(rt, &line);
    }
    say(rt, b"\n");
}

fn main(rt: HostRuntime) {
    let mut text = io::large_buffer();
    let n = io::read_full(STDIN, &mut text);
    if n < 6 {
        return;
    }
    let left = pair(text[2], text[3]);
    let right = pair(text[4], text[5]);
    if text[1] == b'1' {
        check(&rt, left, right, &text[..n]);
    } else {
        make(&rt, left, right);
    }
}
