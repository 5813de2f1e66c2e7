// How a combination is chosen: one walk over a list, by what each costs. Assumes nothing.
#![tactic(auto)]

ghost use Rattle.std.specs.Prelude.{◌≡◌, List};
ghost use Rattle.pricing.specs.machine.State.{Channel as ChannelM};
ghost use Rattle.pricing.specs.machine.Choosing.{choose as choose_m};
ghost use Rattle.pricing.specs.standing.Standing.{Stood};
ghost use Rattle.picking.specs.Picking.{choice_of, Beaten};

use pricing::standing::Standing;
pub use pricing::{channel, machine, standing};

// The cheapest combination so far and its cost.
#[derive(Clone, Copy)]
struct Best {
    map: u8,
    cost: u16,
}

// The best after a look at one more combination: on a tie the earlier one stays.
fn better(t: Standing, barred: u8, best: Option<Best>, map: u8) -> Option<Best>
    ensures { Beaten t barred best map result }
{
    if map & barred != 0 {
        return best;
    }
    let cost = pricing::cost(t, map);
    if best.is_none_or(|b| cost < b.cost) {
        return Some(Best { map, cost });
    }
    best
}

// A combination of free channels is eligible at any precedence: the first ends the walk.
pub fn choose(t: Standing, prec: u8, combos: &[u8]) -> Option<u8>
    ensures { (cs : List ChannelM) → Stood cs t → result ≡ choice_of (choose_m prec combos.now cs) }
{
    if combos.is_empty() {
        return Some(0);
    }
    let barred = standing::barred(t, prec);
    let mut best = None;
    for map in combos {
        if map & t.busy == 0 {
            return Some(*map);
        }
        best = better(t, barred, best, *map);
    }
    best.map(|b| b.map)
}
