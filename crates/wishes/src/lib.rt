// Stereo: whether a map has so many left and so many right channels. For the four-channel board. Assumes nothing.
#![tactic(auto)]

ghost use Rattle.std.specs.Prelude.{◌≡◌, ◌≤◌, ◌<◌};
ghost use Rattle.wishes.specs.Wishes.{named as named_of, lefts as leftsOf, rights as rightsOf, meets as meets_of};

pub use board;
use board::Board;

// 1 where the map names channel c, else 0.
fn named(map: u8, c: u8) -> u8
    requires { c < 8 }
    ensures { (result ≡ named_of map c) × (result ≤ 1) }
{
    (map >> c) & 1
}

fn lefts(map: u8) -> u8
    ensures { result ≡ leftsOf map }
{
    named(map, 0) + named(map, 3)
}

fn rights(map: u8) -> u8
    ensures { result ≡ rightsOf map }
{
    named(map, 1) + named(map, 2)
}

pub fn meets(left: u8, right: u8, map: u8) -> bool
    ensures { result ≡ meets_of left right map }
{
    if map > Board::TOP {
        return false;
    }
    if lefts(map) != left {
        return false;
    }
    rights(map) == right
}
