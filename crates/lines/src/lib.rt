// Replies and answers as lines of upper-case hexadecimal, two digits a byte, each line ended by LF.
// A line is written at its place and nowhere else. Assumes nothing.
#![tactic(auto)]

ghost use Rattle.std.specs.Prelude.{◌≡◌, ◌+◌, ◌*◌, ◌≤◌, length, if◌then◌else◌};
ghost use Rattle.spelling.specs.memory.Splice.{splice, block};
ghost use Rattle.spelling.specs.machine.Log.{answer_line};
ghost use Rattle.answers.specs.Answers.{answer_in};
ghost use Rattle.lines.specs.Lines.{record_line, Tells};

use answers::Answer;

// The line of reply record i.
fn put_record(out: &mut [u8], replies: &[u8], i: usize)
    requires { (i * 15 + 15 ≤ length out.old) × (i * 6 + 6 ≤ length replies.now) }
    ensures { out.new ≡ splice out.old (i * 15) (record_line (block 6 replies.now i)) }
{
    let k = i * 6;
    hex_lines::put_line(out, i * 15, &[0xC0], &replies[k..k + 6]);
}

// A1 outstanding, A0 done.
fn kind(outstanding: bool) -> u8
    ensures { result ≡ (if outstanding then 0xA1 else 0xA0) }
{
    if outstanding { 0xA1 } else { 0xA0 }
}

fn put_answer(out: &mut [u8], at: usize, a: Answer)
    requires { at + 13 ≤ length out.old }
    ensures { out.new ≡ splice out.old at (answer_line (answer_in a)) }
{
    let [high, low] = a.key.to_be_bytes();
    let bytes = [kind(a.outstanding), a.error, a.map, high, low, a.extra];
    hex_lines::put_line(out, at, &bytes, &[]);
}

fn put_all(out: &mut [u8], replies: &[u8], n: usize, a: Answer) -> usize
    requires { (n * 15 + 13 ≤ length out.old) × (n * 6 ≤ length replies.now) × (n ≤ 64) }
    ensures { Tells replies.now n a out.old result out.new }
{
    for i in 0..n {
        put_record(out, replies, i);
    }
    put_answer(out, n * 15, a);
    n * 15 + 13
}

// The lines of the first n replies, then the answer's; how many bytes they are.
pub fn tell(
    replies: &[u8; audio::REPLIES_SIZE],
    n: usize,
    a: Answer,
    out: &mut [u8; audio::ROOM_SIZE],
) -> usize
    requires { n ≤ 64 }
    ensures { Tells replies.now n a out.old result out.new }
{
    put_all(out, replies, n, a)
}
