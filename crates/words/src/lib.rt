// Eight bytes read as one number, lowest first: the compiler makes one load of it. Assumes nothing.
#![tactic(auto)]

ghost use Rattle.std.specs.Prelude.{◌≡◌, ◌+◌, ◌*◌, ◌≤◌, ◌<◌, length, take, drop};
ghost use Rattle.words.specs.Words.{number, zeros};

// The first eight bytes. With constant places the compiler makes one load; with `list[k + 1]` it makes eight.
pub fn first(b: &[u8]) -> u64
    requires { 8 ≤ length b.now }
    ensures { result ≡ number (take 8 b.now) }
{
    u64::from_le_bytes([b[0], b[1], b[2], b[3], b[4], b[5], b[6], b[7]])
}

// The word that stands at k.
pub fn at(list: &[u8], k: usize) -> u64
    requires { k + 8 ≤ length list.now }
    ensures { result ≡ number (take 8 (drop k list.now)) }
{
    first(&list[k..])
}

// Whether n words from k on are all 0: they are gathered in one number, which is looked at once.
pub fn none(list: &[u8], k: usize, n: usize) -> bool
    requires { k + n * 8 ≤ length list.now }
    ensures { result ≡ zeros (take (n * 8) (drop k list.now)) }
{
    let mut all: u64 = 0;
    for i in 0..n {
        all = all | at(list, k + i * 8);
    }
    all == 0
}
