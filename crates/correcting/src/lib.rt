// The wall display after a call: its numbers corrected, and the looks of the last settling. Assumes nothing.
#![tactic(auto)]

ghost use Rattle.std.specs.Prelude.{◌<◌, ◌≡◌, ◌++◌, map, length, take};
ghost use Rattle.machine.specs.InBytes.{two_bytes};
ghost use Rattle.display.specs.Display.{looks_of};
ghost use Rattle.channel_numbers.specs.ChannelNumbers.{count_at, moved};

pub use channel_numbers;
pub use channel_numbers::lanes;
use channel_numbers::store::State;

// The looks of the last settling, as a display has them.
pub fn looks(display: &[u8]) -> usize
    requires { length display.now ≡ 18 }
    ensures { (result ≡ looks_of display.now) × (result < 65536) }
{
    memory::key_at(display, 16) as usize
}

// The display after a call: its numbers corrected, and the looks of the last settling.
pub fn show(display: &mut [u8], before: State, after: State, left: u64, joined: u64, looks: usize)
    requires { (length display.old ≡ 18) × (looks < 65536) }
    ensures { display.new
        ≡ moved (count_at (map (λ c. c.writes.n) after.channels) joined)
        (count_at (map (λ c. c.writes.n) before.channels) left) 0
        (take 16 display.old) ++ two_bytes looks }
{
    channel_numbers::correct(display, before, after, left, joined);
    memory::put_key(display, 16, looks as u16);
}
