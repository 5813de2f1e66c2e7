// The output of a line, as far as it is counted, at the front of a room. Assumes nothing.
#![tactic(auto)]

ghost use Rattle.std.specs.Prelude.{◌≤◌, length};
ghost use Rattle.pouring.specs.Pouring.{Pours};

// The first k bytes of a line's output, at the front of the room.
pub fn pour(text: &[u8], k: usize, out: &mut [u8])
    requires { (k ≤ length text.now) × (k ≤ length out.old) }
    ensures { Pours text.now k out.old out.new }
{
    memory::copy(out, 0, &text[..k]);
}
