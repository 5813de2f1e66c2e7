// Which channels a request names, as a number of eight bytes: byte c, its lane, is 1 where one of the combinations names channel c. Sums of
// few such numbers count in every lane at once. Assumes nothing.
#![tactic(auto)]

ghost use Rattle.std.specs.Prelude.{◌≡◌, ℕ, ◌/◌, ◌%◌, ◌^◌};
ghost use Rattle.machine.specs.Lists.{any};
ghost use Rattle.machine.specs.Maps.{odd};
ghost use Rattle.words.specs.Words.{number};
ghost use Rattle.lanes.specs.Lanes.{lanes, word_of};

// The channels that one of the combinations names.
fn named_by(combos: &[u8]) -> u8
    ensures { (c : ℕ) → odd (result / 2 ^ c) ≡ any (λ m. odd (m / 2 ^ c)) combos.now }
{
    let mut all: u8 = 0;
    for m in combos {
        all = all | *m;
    }
    all
}

// A map's eight bits, each in its lane.
fn spread(map: u8) -> u64
    ensures { result ≡ number (lanes (λ c. map / 2 ^ c % 2)) }
{
    let bits = [
        map % 2,
        map / 2 % 2,
        map / 4 % 2,
        map / 8 % 2,
        map / 16 % 2,
        map / 32 % 2,
        map / 64 % 2,
        map / 128 % 2,
    ];
    words::first(&bits)
}

// A 1 in each lane whose channel one of the combinations names.
pub fn word(combos: &[u8]) -> u64
    ensures { result ≡ word_of combos.now }
{
    spread(named_by(combos))
}
