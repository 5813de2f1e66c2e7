// The 18 bytes of a display that a caller lends, in an array and back. Assumes nothing.
#![tactic(auto)]

ghost use Rattle.std.specs.Prelude.{◌≡◌, length};

pub fn read(display: &[u8]) -> [u8; 18]
    requires { length display.now ≡ 18 }
    ensures { result ≡ display.now }
{
    let mut shown = [0u8; 18];
    shown.copy_from_slice(display);
    shown
}

pub fn write(display: &mut [u8], shown: &[u8; 18])
    requires { length display.old ≡ 18 }
    ensures { display.new ≡ shown.now }
{
    display.copy_from_slice(shown);
}
