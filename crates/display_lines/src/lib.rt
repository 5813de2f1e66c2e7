// The wall display as lines of upper-case hexadecimal, each ended by LF: the numbers, then who waits, from a list of structs.
// A line is written at its place and nowhere else. Assumes nothing.
#![tactic(auto)]

ghost use Rattle.std.specs.Prelude.{◌≡◌, ◌∷◌, ◌+◌, ◌*◌, ◌≤◌, length, take};
ghost use Rattle.spelling.specs.memory.Splice.{splice};
ghost use Rattle.spelling.specs.machine.Log.{line};
ghost use Rattle.display_lines.specs.DisplayLines.{load_of, four_of, record_lines, Shows};

pub use record_structs;
pub use record_structs::{decoding, waiting_list};
use record_structs::{ROOM, Waiter};

// E0: the two numbers of each of w channels, then the looks.
fn put_load(out: &mut [u8], w: usize, display: &[u8])
    requires { (w ≤ 8) × (length display.now ≡ 18) × (39 ≤ length out.old) }
    ensures { out.new ≡ splice out.old 0 (load_of w display.now) }
{
    let k = 2 * w;
    let e = 2 + 2 * k;
    spelling::put_byte(out, 0, 0xE0);
    hex_lines::put_bytes(out, 2, &display[..k]);
    hex_lines::put_bytes(out, e, &display[16..]);
    out[e + 4] = 10;
}

// E1 and a record's four bytes.
fn put_record(out: &mut [u8], at: usize, bs: &[u8])
    requires { (length bs.now ≡ 4) × (at + 11 ≤ length out.old) }
    ensures { out.new ≡ splice out.old at (line (0xE1 ∷ bs.now)) }
{
    spelling::put_byte(out, at, 0xE1);
    hex_lines::put_bytes(out, at + 2, bs);
    out[at + 10] = 10;
}

// The line of a waiting request.
fn put_waiter(out: &mut [u8], at: usize, w: Waiter)
    requires { at + 11 ≤ length out.old }
    ensures { out.new ≡ splice out.old at (line (0xE1 ∷ four_of w)) }
{
    let bs = [w.id, w.prec, u8::from(w.held), w.desk];
    put_record(out, at, &bs);
}

// A line for each struct.
fn put_records(out: &mut [u8], at: usize, list: &[Waiter])
    requires { at + length list.now * 11 ≤ length out.old }
    ensures { out.new ≡ splice out.old at (record_lines list.now) }
{
    for (i, w) in list.iter().enumerate() {
        put_waiter(out, at + i * 11, *w);
    }
}

// The lines of a display on a board of `width` channels, with the structs of the n that wait; how many bytes they are.
pub fn spell(
    width: u8,
    display: &[u8; audio::DISPLAY_SIZE],
    list: [Waiter; ROOM],
    n: usize,
    out: &mut [u8; 743],
) -> usize
    requires { (width ≤ 8) × (n ≤ 64) }
    ensures { Shows width display.now (take n list) out.old result out.new }
{
    let w = width as usize;
    put_load(out, w, display);
    let k = 7 + 4 * w;
    put_records(out, k, &list[..n]);
    k + n * 11
}
