// A board of four or eight channels: its number of channels stands beside the state, which has room for eight. It is read here, by
// the test of a state, and where a board's own channels are shown; the code below the call never reads it. Assumes nothing.
#![tactic(auto)]

ghost use Rattle.std.specs.Prelude.{◌≡◌};
ghost use Rattle.board.specs.Board.{sized as sized_m, top_of, fresh_board};

use answers::Answer;
pub use answers::store;
use answers::store::State;
pub use channel;

#[derive(Clone, Copy)]
pub struct Board {
    pub width: u8,
    pub state: State,
}

// An answer, the board afterwards, and how many replies there are.
#[derive(Clone, Copy)]
pub struct Outcome {
    pub answer: Answer,
    pub state: Board,
    pub n: usize,
}

impl Board {
    pub const FOUR: u8 = 4;

    pub const EIGHT: u8 = 8;

    // The highest map of four channels; that of eight is `State::TOP`.
    pub const TOP: u8 = 15;

    // Whether there is a board with so many channels.
    pub fn sized(width: u8) -> bool
        ensures { result ≡ sized_m width }
    {
        width == Board::FOUR || width == Board::EIGHT
    }

    // The highest map: on four channels 15, on eight 255.
    pub fn top(width: u8) -> u8
        ensures { result ≡ top_of width }
    {
        if width == Board::FOUR {
            Board::TOP
        } else {
            State::TOP
        }
    }

    pub fn fresh(width: u8) -> Self
        ensures { result ≡ fresh_board width }
    {
        let s = State::fresh();
        Board { width, state: s }
    }
}
