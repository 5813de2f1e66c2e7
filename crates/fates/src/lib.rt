// What becomes of a lock when channels are freed and when a held request wants them; of a WAITCYCLE when a write is cut and when a
// cycle of it ends. Assumes nothing.
#![tactic(auto)]

ghost use Rattle.std.specs.Prelude.{◌≡◌, ◌<◌};
ghost use Rattle.fates.specs.declared.End.TheVariants.{Freed};
ghost use Rattle.fates.specs.Fates.{command_of, Told, Fated};

use audio::{ADCMD_LOCK, ADCMD_WAITCYCLE, ADIOERR_CHANNELSTOLEN, IOERR_ABORTED};
pub use store;
use store::State;
pub use store::reply;

// What happens to the channels that a lock or a WAITCYCLE names: they are freed, a held request wants them; the front write is cut,
// its event comes. An enum and no closure: a promise names each (`ends_at`, `map_at`, `error_of`).
#[derive(Clone, Copy)]
pub enum End {
    Freed,
    Stolen,
    Cut,
    Met,
}

// It ends, and is replied an error and a map; or it stays, with the map.
#[derive(Clone, Copy)]
pub enum Fate {
    Ends { error: u8, map: u8 },
    Stays { map: u8 },
}

// LOCK or WAITCYCLE.
pub fn command(how: End) -> u8
    ensures { result ≡ command_of how }
{
    match how {
        End::Freed => ADCMD_LOCK,
        End::Stolen => ADCMD_LOCK,
        End::Cut => ADCMD_WAITCYCLE,
        End::Met => ADCMD_WAITCYCLE,
    }
}

// The channels m are freed: their bits go.
fn freed(own: u8, m: u8) -> Fate
    requires { (own < 256) × (m < 256) }
    ensures { Fated Freed m own result }
{
    let left = own & (State::TOP - m);
    let emptied = left == 0;
    if emptied {
        Fate::Ends { error: 0, map: 0 }
    } else {
        Fate::Stays { map: left }
    }
}

// One that shares a channel with m ends with the error and the map; another stays.
fn told(own: u8, m: u8, error: u8, map: u8) -> Fate
    requires { (own < 256) × (m < 256) }
    ensures { Told m own error map result }
{
    let shared = own & m != 0;
    if shared {
        Fate::Ends { error, map }
    } else {
        Fate::Stays { map: own }
    }
}

// The fate of one with the map `own`.
pub fn judge(own: u8, m: u8, how: End) -> Fate
    requires { (own < 256) × (m < 256) }
    ensures { Fated how m own result }
{
    match how {
        End::Freed => freed(own, m),
        End::Stolen => told(own, m, ADIOERR_CHANNELSTOLEN, own),
        End::Cut => told(own, m, IOERR_ABORTED, 0),
        End::Met => told(own, m, 0, own),
    }
}
