// A byte spelt as two digits of upper-case hexadecimal. They are written at their place and nowhere else. Assumes nothing.
#![tactic(auto)]

ghost use Rattle.std.specs.Prelude.{◌≡◌, [], ◌∷◌, ◌+◌, ◌≤◌, ◌<◌, length};
ghost use Rattle.memory.specs.Splice.{splice};
ghost use Rattle.machine.specs.Log.{hex_digit};
ghost use Rattle.spelling.specs.Spelling.{digits};

pub use machine;
pub use memory;

#[tactic(auto, unfolding(machine::specs::Log::hex_digit))]
fn digit(n: u8) -> u8
    requires { n < 16 }
    ensures { result ≡ hex_digit n }
{
    if n < 10 { b'0' + n } else { b'A' + (n - 10) }
}

pub fn put_byte(out: &mut [u8], at: usize, b: u8)
    requires { at + 2 ≤ length out.old }
    ensures { out.new ≡ splice out.old at (digits (b ∷ [])) }
{
    out[at] = digit(b / 16);
    out[at + 1] = digit(b % 16);
}
