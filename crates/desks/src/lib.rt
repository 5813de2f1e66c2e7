// Which desk an id belongs to. Assumes nothing.
#![tactic(auto)]

ghost use Rattle.std.specs.Prelude.{◌≡◌};
ghost use Rattle.machine.specs.Desks.{desk_of};

// Desk A has the ids 0 to 31, desk B the others.
pub const HALF: u8 = 32;

// 0 for desk A, 1 for desk B. A byte and no enum: a program in C names the desk of a call by a byte, which may be neither.
pub fn of(id: u8) -> u8
    ensures { result ≡ desk_of id }
{
    if id < HALF { 0 } else { 1 }
}
