// A number of the wall display, moved by what joined its queue and what left it. Assumes nothing.
#![tactic(auto)]

ghost use Rattle.std.specs.Prelude.{◌<◌, ◌≡◌, [], ◌∷◌, length, get_or};
ghost use Rattle.memory.specs.Splice.{splice};
ghost use Rattle.shifting.specs.Shifting.{shifted};

// A number with `more` added and `less` taken away, modulo 256.
fn shift(b: u8, more: u8, less: u8) -> u8
    ensures { result ≡ shifted b more less }
{
    b.wrapping_add(more).wrapping_sub(less)
}

// The number at place j, so.
pub fn put(display: &mut [u8], j: usize, more: u8, less: u8)
    requires { j < length display.old }
    ensures { display.new ≡ splice display.old j (shifted (get_or display.old j 0) more less ∷ []) }
{
    let n = shift(display[j], more, less);
    display[j] = n;
}
