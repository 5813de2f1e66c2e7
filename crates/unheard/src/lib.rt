// A line of a log that is not served: 7 to what is no frame, 1 to a frame on a state that is not sound. The state stays.
// Assumes nothing.
#![tactic(auto)]

ghost use Rattle.board.specs.declared.Board.{Board};
ghost use Rattle.unheard.specs.Unheard.{Dull, Unheard};

pub use frames;
pub use lines;

// A line that is no frame: 7, map 0, key 0. How many bytes of output there are; the state, whatever it is, stays.
pub fn malformed(out: &mut [u8; audio::ROOM_SIZE]) -> usize
    ensures { (s : Board) → Dull s out.old (record { state = s; n = result }) out.new }
{
    let none = [0u8; audio::REPLIES_SIZE];
    let a = answers::done(audio::MALFORMED, 0, 0, audio::NONE);
    lines::tell(&none, 0, a, out)
}

// A line on a state that is not sound: a call is answered 1, and nothing moves.
pub fn unsound(line: &[u8], out: &mut [u8; audio::ROOM_SIZE]) -> usize
    ensures { (s : Board) → Unheard s line.now out.old (record { state = s; n = result }) out.new }
{
    let mut combos = [0u8; audio::LIST_SIZE];
    let Some(f) = frames::read(line, &mut combos) else {
        return malformed(out);
    };
    let r = f.request;
    let none = [0u8; audio::REPLIES_SIZE];
    let a = answers::done(audio::UNSOUND, 0, r.key, audio::NONE);
    lines::tell(&none, 0, a, out)
}
