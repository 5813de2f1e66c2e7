// What a trial of `any_bytes` writes. No function hands anything back or changes memory; what is written, no contract can say.
// Assumes nothing.
#![tactic(auto)]

ghost use Rattle.std.specs.Prelude.{◌<◌};

pub use answers;
use answers::Answer;

pub fn text(words: &[u8]) {
    io::write_all(1, words);
}

// How many replies there are.
pub fn count(n: usize) {
    io::print_decimal(1, n as u64);
}

fn digit(n: u8) -> u8
    requires { n < 16 }
{
    b"0123456789ABCDEF"[usize::from(n)]
}

// By hand and not by a format: a macro that prints takes the runtime, which no trial is given.
fn byte(b: u8) {
    let digits = [digit(b / 16), digit(b % 16)];
    text(&digits);
}

fn bytes(list: &[u8]) {
    for b in list {
        byte(*b);
    }
}

// The first n records of a reply list, as far as it goes, each as the log has it.
pub fn records(list: &[u8], n: usize) {
    for record in list.chunks(6).take(n) {
        text(b" C0");
        bytes(record);
    }
}

fn kind(outstanding: bool) -> u8 {
    if outstanding { 0xA1 } else { 0xA0 }
}

// An answer as the log has it.
pub fn answer(a: Answer) {
    byte(kind(a.outstanding));
    byte(a.error);
    byte(a.map);
    bytes(&a.key.to_be_bytes());
    byte(a.extra);
}

fn unless(same: bool, words: &[u8]) {
    if !same {
        text(words);
    }
}

// Whether the state and the table are as before the call, and the reply list beyond the replies.
pub fn moved(state: bool, table: bool, list: bool) {
    unless(state, b", state moved");
    unless(table, b", table moved");
    unless(list, b", list moved");
    let some = !(state && table && list);
    unless(some, b", nothing moved");
    text(b"\n");
}
