// Stereo: the list of all maps with so many left and so many right channels, and the test of any list from anyone. For the
// four-channel board. Assumes nothing.
#![tactic(auto)]

ghost use Rattle.std.specs.Prelude.{◌≡◌, ◌≤◌, eqb, length};
ghost use Rattle.machine_laws.specs.machine.Lists.{all};
ghost use Rattle.memory.specs.Splice.{splice};
ghost use Rattle.wishes.specs.Wishes.{meets as meets_of};
ghost use Rattle.stereo.specs.Stereo.{wished, Makes, times as timesOf, accepts as accepts_of};

use wishes::board::Board;

// The refusal, or 0, and how many maps were written. Bytes and no Result: the program in C gets both numbers as they stand here.
#[derive(Clone, Copy)]
pub struct Made {
    pub error: u8,
    pub count: usize,
}

// The maps that meet the wish, ascending, at the front of the room.
fn fill(left: u8, right: u8, maps: &mut [u8]) -> usize
    requires { (left ≤ 2) × (right ≤ 2) × (4 ≤ length maps.old) }
    ensures { (result ≡ length (wished left right)) × (maps.new ≡ splice maps.old 0 (wished left right)) }
{
    let mut n = 0;
    for map in 0..=Board::TOP {
        if wishes::meets(left, right, map) {
            maps[n] = map;
            n += 1;
        }
    }
    n
}

pub fn make(left: u8, right: u8, maps: &mut [u8]) -> Made
    ensures { Makes left right maps.old result maps.new }
{
    if left > 2 {
        return Made {
            error: audio::BADWISH,
            count: 0,
        };
    }
    if right > 2 {
        return Made {
            error: audio::BADWISH,
            count: 0,
        };
    }
    if maps.len() < audio::STEREO_ROOM {
        return Made {
            error: audio::TOOSMALL,
            count: 0,
        };
    }
    let n = fill(left, right, maps);
    Made { error: 0, count: n }
}

fn times(map: u8, maps: &[u8]) -> usize
    ensures { result ≡ timesOf map maps.now }
{
    maps.iter().filter(|m| **m == map).count()
}

// Nothing in the list but maps that meet the wish.
fn nothing_else(left: u8, right: u8, maps: &[u8]) -> bool
    ensures { result ≡ all (meets_of left right) maps.now }
{
    maps.iter().all(|map| wishes::meets(left, right, *map))
}

// Every map that meets the wish, once.
fn each_once(left: u8, right: u8, maps: &[u8]) -> bool
    ensures { result ≡ all (λ m. eqb (timesOf m maps.now) 1) (wished left right) }
{
    for map in 0..=Board::TOP {
        if wishes::meets(left, right, map) {
            if times(map, maps) != 1 {
                return false;
            }
        }
    }
    true
}

pub fn accepts(left: u8, right: u8, maps: &[u8]) -> bool
    ensures { result ≡ accepts_of left right maps.now }
{
    if left > 2 {
        return false;
    }
    if right > 2 {
        return false;
    }
    if !nothing_else(left, right, maps) {
        return false;
    }
    each_once(left, right, maps)
}
