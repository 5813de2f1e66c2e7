// The refusals of form and their steps: what is wrong with a list of combinations, a map, a command's number, an id. Assumes nothing.
#![tactic(auto)]

ghost use Rattle.std.specs.Prelude.{◌≡◌, not, ◌+◌, ◌<◌, length};
ghost use Rattle.store.specs.machine.Lists.{any};
ghost use Rattle.store.specs.machine.Kinds.{kind, unknown, carries as carries_m};
ghost use Rattle.store.specs.machine.Refusals.{first};
ghost use Rattle.steps.specs.Steps.{number_of, number, number_in, high, used, list_tests, event_tests, number_tests};

use numbers::table;
use store::State;

// Why a call is refused, by the names of exec/errors.h, exec/io.h and include/qamhudeer.h.
#[derive(Clone, Copy)]
pub enum Refusal {
    NoRoom,
    BadId,
    OtherDesk,
    InUse,
    NotOpen,
    NoCmd,
    BadLength,
    BadAddress,
    OpenFail,
}

impl Refusal {
    // The byte that the answer shows: a negative error in two's complement.
    pub fn number(self) -> u8
        ensures { result ≡ number self }
    {
        match self {
            Refusal::NoRoom => 5,
            Refusal::BadId => 4,
            Refusal::OtherDesk => 8,
            Refusal::InUse => 3,
            Refusal::NotOpen => 2,
            Refusal::NoCmd => 253,
            Refusal::BadLength => 252,
            Refusal::BadAddress => 251,
            Refusal::OpenFail => 255,
        }
    }
}

// Whether a combination is above the board's highest map.
fn any_high(combos: &[u8], top: u8) -> bool
    ensures { result ≡ any (high (top + 1)) combos.now }
{
    combos.iter().any(|map| *map > top)
}

// More than 16 combinations, or one above the highest map.
pub fn bad_list(combos: &[u8], top: u8) -> Result<(), Refusal>
    ensures { number_in result ≡ number_of (first (list_tests (top + 1) combos.now)) }
{
    if State::COMBOS < combos.len() {
        return Err(Refusal::BadLength);
    }
    if any_high(combos, top) {
        return Err(Refusal::BadAddress);
    }
    Ok(())
}

// A map above the highest.
pub fn bad_map(map: u8, top: u8) -> Result<(), Refusal>
    ensures { number_in result ≡ number_of (first (event_tests (top + 1) map)) }
{
    if map > top {
        return Err(Refusal::BadAddress);
    }
    Ok(())
}

// Cycles, period and volume: six bytes in range, or none.
pub fn bad_numbers(combos: &[u8]) -> Result<(), Refusal>
    ensures { number_in result ≡ number_of (first (number_tests combos.now)) }
{
    if combos.is_empty() {
        return Ok(());
    }
    if combos.len() != 6 {
        return Err(Refusal::BadLength);
    }
    if numbers::in_range(combos[2], combos[3], combos[4], combos[5]) {
        return Ok(());
    }
    Err(Refusal::BadLength)
}

// Whether the number is one of the fifteen commands'.
pub fn known(command: u8) -> bool
    ensures { result ≡ not (unknown (kind command)) }
{
    if command == 0 {
        return false;
    }
    if command <= 14 {
        return true;
    }
    command == 32
}

// Whether the number is WRITE's or PERVOL's, which carry cycles, period and volume.
pub fn carries(command: u8) -> bool
    ensures { result ≡ carries_m (kind command) }
{
    command == 3 || command == 12
}

// Whether the id is outstanding: an idle id's entry is all 0, and an outstanding one's begins with a command.
pub fn outstanding(table: &[u8], id: u8) -> bool
    requires { (id < 64) × (length table.now ≡ 1472) }
    ensures { result ≡ used table.now id }
{
    table::command(table, id) != 0
}
