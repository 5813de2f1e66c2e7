// The numbers of a display as lines of a saved text in its second form, one for each channel of a board: document 02, #112. A line is
// written at its place and nowhere else; each function hands back the place behind what it wrote. Assumes nothing.
#![tactic(auto)]

ghost use Rattle.std.specs.Prelude.{◌≡◌, ◌+◌, ◌*◌, ◌≤◌, ◌<◌, length};
ghost use Rattle.machine.specs.Log.{line};
ghost use Rattle.hex_lines.specs.HexLines.{Put};
ghost use Rattle.saved2.specs.saved.Saved.{spelt};
ghost use Rattle.number_lines.specs.NumberLines.{number_line, number_lines};

pub use frame_lines;
pub use hex_lines;
pub use saved2;
pub use saved2::saved;

// D9: the two numbers of channel i.
fn put_number(out: &mut [u8], at: usize, i: usize, display: &[u8]) -> usize
    requires { (i < 8) × (length display.now ≡ 18) × (at + 9 ≤ length out.old) }
    ensures { Put out.old at (line (number_line display.now i)) result out.new }
{
    let k = 2 * i;
    let head = [0xD9u8, i as u8];
    let tail = [display[k], display[k + 1]];
    hex_lines::put_line(out, at, &head, &tail)
}

// Those of the first w channels.
pub fn put_numbers(out: &mut [u8], at: usize, w: usize, display: &[u8]) -> usize
    requires { (w ≤ 8) × (length display.now ≡ 18) × (at + 9 * w ≤ length out.old) }
    ensures { Put out.old at (spelt (number_lines w display.now)) result out.new }
{
    let mut p = at;
    for i in 0..w {
        p = put_number(out, p, i, display);
    }
    p
}
