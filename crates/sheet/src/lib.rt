// What was read so far of a saved text, and what each frame makes of it (specs/Sheet.antt). Assumes nothing.
#![tactic(auto)]

use store::State;

// What was read so far: the state, and how many channels. The table and what is remembered for each channel are lent beside it.
#[derive(Clone, Copy)]
pub struct Draft {
    pub state: State,
    pub seen: usize,
}
