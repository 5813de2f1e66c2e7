// The numbers that WRITE and PERVOL carry: cycles, period and volume as their bytes, and what a write keeps of them. Assumes nothing.
#![tactic(auto)]

ghost use Rattle.std.specs.Prelude.{◌≡◌, ◌⊎◌, ◌+◌, ◌*◌, ◌<◌, length, get_or};
ghost use Rattle.machine.specs.Sound.{sound_tone};
ghost use Rattle.table.specs.Entry.{tone_at, number_bytes};
ghost use Rattle.numbers.specs.Numbers.{carried, pervol_kept, sound_numbers};

pub use table;
use table::Head;

fn period(high: u8, middle: u8, low: u8) -> u32
    ensures { result ≡ 65536 * high + (256 * middle + low) }
{
    u32::from_be_bytes([0, high, middle, low])
}

// Whether a period, by its three bytes, is one of 124 to 65,536, and a volume at most 64.
#[tactic(auto, unfolding(machine::specs::Sound::sound_tone))]
pub fn in_range(high: u8, middle: u8, low: u8, volume: u8) -> bool
    ensures { result ≡ sound_tone (65536 * high + (256 * middle + low)) volume }
{
    let p = period(high, middle, low);
    124 <= p && p <= 65536 && volume <= 64
}

// What its type says of a byte.
fn known(x: u8) -> u8
    ensures { (result ≡ x) × (result < 256) }
{
    x
}

fn byte(list: &[u8], k: usize) -> u8
    requires { k < length list.now }
    ensures { (result ≡ get_or list.now k 0) × (result < 256) }
{
    known(list[k])
}

// The numbers of a write with nothing remembered: the six bytes given, or 1, 124 and 64 where none are.
pub fn of(combos: &[u8]) -> [u8; Head::NUMBERS]
    requires { (length combos.now ≡ 0) ⊎ (length combos.now ≡ 6) }
    ensures { result ≡ number_bytes (carried 0 combos.now) }
{
    let mut b = [0u8; Head::NUMBERS];
    if combos.len() == 6 {
        b[0] = byte(combos, 0);
        b[1] = byte(combos, 1);
        b[2] = byte(combos, 2);
        b[3] = byte(combos, 3);
        b[4] = byte(combos, 4);
        b[5] = byte(combos, 5);
        return b;
    }
    b[1] = 1;
    b[4] = 124;
    b[5] = 64;
    b
}

// PERVOL's numbers are remembered with a mark; without it they are 0.
#[tactic(auto, unfolding(crate::specs::Numbers::pervol_kept))]
fn pervol_kept(b: [u8; Head::NUMBERS]) -> bool
    ensures { result ≡ pervol_kept b }
{
    if b[7] == 1 {
        in_range(b[8], b[9], b[10], b[11])
    } else {
        b[7] == 0 && b[8] == 0 && b[9] == 0 && b[10] == 0 && b[11] == 0
    }
}

// Whether they are the numbers of a sound write; only a front one remembers anything.
#[tactic(auto, unfolding(crate::specs::Numbers::sound_numbers))]
pub fn sound(b: [u8; Head::NUMBERS], front: bool) -> bool
    ensures { result ≡ sound_numbers front b }
{
    in_range(b[2], b[3], b[4], b[5])
        && b[6] <= 1
        && pervol_kept(b)
        && (front || (b[6] == 0 && b[7] == 0))
}
