// The channels by their front write: which have one in progress, at which an id is in front. Assumes nothing.
#![tactic(auto)]

ghost use Rattle.std.specs.Prelude.{◌≡◌, ◌<◌, ◌/◌, ◌^◌};
ghost use Rattle.channel.specs.Channel.{map_where};
ghost use Rattle.fronts.specs.Fronts.{on_air, leads_at, passes as passes_m, named};

use channel::Channel;

// What is asked of a channel's front write: that it is in progress, or that it is an id's. An enum and no closure: a promise names each (`named`).
#[derive(Clone, Copy)]
pub enum Front {
    Plays,
    Leads(u8),
}

// A write is in progress at the front of a queue that is not stopped.
pub fn plays(c: Channel) -> bool
    ensures { result ≡ on_air c }
{
    if c.stopped {
        return false;
    }
    let q = c.writes;
    q.n != 0
}

fn leads(c: Channel, id: u8) -> bool
    ensures { result ≡ leads_at id c }
{
    let q = c.writes;
    if q.n == 0 {
        return false;
    }
    let first = q.at(0);
    id == first
}

fn passes(c: Channel, front: Front) -> bool
    ensures { result ≡ passes_m front c }
{
    match front {
        Front::Plays => plays(c),
        Front::Leads(id) => leads(c, id),
    }
}

// Whether the map names the channel and it passes.
fn hit(c: Channel, front: Front, map: u8, i: usize) -> bool
    requires { i < 8 }
    ensures { result ≡ named front (map / 2 ^ i) c }
{
    channel::names(map, i) && passes(c, front)
}

// Of the channels that the map names, those that pass.
pub fn which(cs: [Channel; 8], front: Front, map: u8) -> u8
    ensures { result ≡ map_where (named front) map cs }
{
    let mut ok: u8 = 0;
    for (i, c) in cs.iter().enumerate() {
        if hit(*c, front, map, i) {
            ok |= 1 << i;
        }
    }
    ok
}
