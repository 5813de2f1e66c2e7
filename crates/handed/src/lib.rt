// What a program in C hands in as numbers, and the answer that it gets back as bytes. Assumes nothing.
#![tactic(auto)]

ghost use Rattle.std.specs.Prelude.{◌≡◌, ◌+◌, ◌%◌, ◌≤◌, length};
ghost use Rattle.answers.specs.machine.Desks.{HALF};
ghost use Rattle.answers.specs.machine.Log.{op_of};
ghost use Rattle.refusals.specs.Refusals.{op_for};
ghost use Rattle.handed.specs.Handed.{answer_bytes};

use answers::Answer;
pub use refusals;
use refusals::Op;

// Operations F0 to F4 are OPEN, CLOSE, ABORT and the events; any other number is that of a command. A function and no From: `Op` is of
// another crate, and only the call in C has numbers.
pub fn op_of(b: u8) -> Op
    ensures { result ≡ op_for (op_of b) }
{
    match b {
        0xF0 => Op::Open,
        0xF1 => Op::Close,
        0xF2 => Op::Abort,
        0xF3 => Op::CycleEnded,
        0xF4 => Op::GaveUp,
        _ => Op::Command,
    }
}

// A precedence comes in two's complement, and stands as itself plus 128.
pub fn stored(b: u8) -> u8
    ensures { result ≡ (b + 128) % 256 }
{
    b.wrapping_add(128)
}

// Behind the answer stand how many replies each half of the list has: na to desk A, nb to desk B.
pub fn put_answer(answer: &mut [u8], a: Answer, na: usize, nb: usize)
    requires { (length answer.old ≡ 8) × (na ≤ HALF) × (nb ≤ HALF) }
    ensures { answer.new ≡ answer_bytes a na nb }
{
    let [high, low] = a.key.to_be_bytes();
    answer.copy_from_slice(&[
        u8::from(a.outstanding),
        a.error,
        a.map,
        high,
        low,
        a.extra,
        na as u8,
        nb as u8,
    ]);
}
