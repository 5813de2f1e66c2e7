// Whether a call on a port is let in: the port, and how much display and room it lends, tested. Assumes nothing.
#![tactic(auto)]

ghost use Rattle.std.specs.Prelude.{◌≡◌, MatchResult};
ghost use Rattle.admitting.specs.Admitting.{number_of, refusal};

pub use port;
pub use port::sizes;

// Why a call is refused: no port, or no display; too little room for the output of one line.
#[derive(Clone, Copy)]
pub enum Refusal {
    NoPort,
    TooSmall,
}

impl From<Refusal> for u8 {
    ghost from_gives = { λ why n. n ≡ number_of why };

    fn from(why: Refusal) -> u8 {
        match why {
            Refusal::NoPort => 1,
            Refusal::TooSmall => 12,
        }
    }
}

// Whether a call with this port and so much display and room is let in.
pub fn admit(port: &[u8], display: usize, room: usize) -> Result<(), Refusal>
    ensures { MatchResult result (λ _. refusal port.now display room ≡ 0)
        (λ why. refusal port.now display room ≡ number_of why) }
{
    if port.len() != 529 {
        return Err(Refusal::NoPort);
    }
    if display != 18 {
        return Err(Refusal::NoPort);
    }
    if memory::key_at(port, 0) > 527 {
        return Err(Refusal::NoPort);
    }
    if room < 973 {
        return Err(Refusal::TooSmall);
    }
    Ok(())
}
