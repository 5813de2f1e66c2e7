// Lines of upper-case hexadecimal, of any bytes: written at a place of lent memory, each ended by LF, and read. Assumes nothing.
#![tactic(auto)]

ghost use Rattle.std.specs.Prelude.{◌≡◌, ◌++◌, ◌+◌, ◌*◌, ◌≤◌, length};
ghost use Rattle.spelling.specs.memory.Splice.{splice};
ghost use Rattle.spelling.specs.machine.Log.{line};
ghost use Rattle.spelling.specs.Spelling.{digits};
ghost use Rattle.hex_lines.specs.HexLines.{octets_of, Put};

// The digits of bytes.
pub fn put_bytes(out: &mut [u8], at: usize, bs: &[u8])
    requires { at + 2 * length bs.now ≤ length out.old }
    ensures { out.new ≡ splice out.old at (digits bs.now) }
{
    for (i, b) in bs.iter().enumerate() {
        spelling::put_byte(out, at + 2 * i, *b);
    }
}

// A line of some bytes and some more; the place behind it.
pub fn put_line(out: &mut [u8], at: usize, head: &[u8], tail: &[u8]) -> usize
    requires { at + 2 * (length head.now + length tail.now) + 1 ≤ length out.old }
    ensures { Put out.old at (line (head.now ++ tail.now)) result out.new }
{
    let k = at + 2 * head.len();
    let e = k + 2 * tail.len();
    put_bytes(out, at, head);
    put_bytes(out, k, tail);
    out[e] = 10;
    e + 1
}

// The bytes that a line spells, in front of `f`; how many they are. None where it spells none, or more than 23.
// A count, not an Option: to `octets_of` a line that spells nothing and a line of no bytes are one.
pub fn octets(line: &[u8], f: &mut [u8]) -> usize
    requires { length f.old ≡ 23 }
    ensures { (result ≡ length (octets_of line.now)) × (f.new ≡ splice f.old 0 (octets_of line.now)) }
{
    if line.len() > 46 {
        return 0;
    }
    if !digits::spelt(line) {
        return 0;
    }
    let n = line.len() / 2;
    for (i, octet) in f[..n].iter_mut().enumerate() {
        *octet = digits::byte_at(line, i);
    }
    n
}
