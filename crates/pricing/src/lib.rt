// What a combination costs, as one number, by how the channels stand. Assumes nothing.
#![tactic(auto)]

ghost use Rattle.std.specs.Prelude.{List, ◌<◌};
ghost use Rattle.machine.specs.State.{Channel as ChannelM};
ghost use Rattle.standing.specs.Standing.{Stood};
ghost use Rattle.pricing.specs.Pricing.{Priced};

pub use channel;
pub use channel::machine_laws;
pub use machine;
pub use standing;
use standing::Standing;

// A cost as one number, the higher where it costs more: the highest precedence, then how many channels are stolen. A free
// channel costs nothing, whatever precedence it stores.
pub fn cost(t: Standing, map: u8) -> u16
    ensures { (result < 65535) × ((cs : List ChannelM) → Stood cs t → Priced map cs result) }
{
    let taken = map & t.busy;
    let mut top: u8 = 0;
    let mut many: u16 = 0;
    for (i, prec) in t.precs.iter().enumerate() {
        if channel::names(taken, i) {
            top = top.max(*prec);
            many += 1;
        }
    }
    u16::from(top) * 256 + many
}
