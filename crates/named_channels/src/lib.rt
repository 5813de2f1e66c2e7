// What the commands do to the channels that a map names, and which of them match a key, in the lent bytes. Assumes nothing.
#![tactic(auto)]

ghost use Rattle.std.specs.Prelude.{◌≡◌, ◌/◌, ◌^◌, ◌<◌, T, length};
ghost use Rattle.channel.specs.Channel.{hits, matching_each};
ghost use Rattle.image.specs.Image.{Whole, state_of};
ghost use Rattle.lent_channels.specs.lent.Lent.{Tidy, channel_on};
ghost use Rattle.named_channels.specs.Named.{by_head, changed_head, TidyAll, Once, Changed};

use channel::Change;
use lent_channels::Channel;

// A change of a channel by value; one of its front write is not one of these.
fn changed(c: Channel, how: Change) -> Channel
    ensures { result ≡ changed_head how c }
{
    match how {
        Change::Reset => c.reset(),
        Change::Free => c.free(),
        Change::SetPrecedence(p) => c.set_precedence(p),
        Change::Flush => c.flush(),
        Change::Stop(b) => c.stop(b),
        Change::Lock => c.lock(),
        Change::Take(k, p) => c.take(k, p),
        Change::FrontGone => c,
        Change::FrontOnly => c,
        Change::Nothing => c,
    }
}

fn once(state: &mut [u8], map: u8, i: usize, how: Change)
    requires { Whole state.old × (i < 8) × Tidy (channel_on i (state_of state.old)).writes × T (by_head how) }
    ensures { Once how map i state.old state.new }
{
    if channel::names(map, i) {
        let c = lent_channels::head(state, i);
        let d = changed(c, how);
        lent_channels::put_head(state, i, d);
    }
}

// The change at each channel that the map names.
pub fn change_named(state: &mut [u8], map: u8, how: Change)
    requires { Whole state.old × TidyAll (state_of state.old) × T (by_head how) }
    ensures { Changed how map state.old state.new }
{
    for i in 0..8 {
        once(state, map, i, how);
    }
}

#[tactic(auto, unfolding(channel::specs::Channel::hits, channel::specs::Channel::has_key))]
fn hit(state: &[u8], key: u16, map: u8, i: usize) -> bool
    requires { (length state.now ≡ 823) × (i < 8) }
    ensures { result ≡ hits key (map / 2 ^ i) (channel_on i (state_of state.now)) }
{
    channel::names(map, i) && key != 0 && lent_channels::key(state, i) == key
}

// Of the channels that the map names, those whose key matches.
pub fn matching(state: &[u8], key: u16, map: u8) -> u8
    requires { length state.now ≡ 823 }
    ensures { result ≡ matching_each key map (state_of state.now).state.channels }
{
    let mut ok: u8 = 0;
    for i in 0..8 {
        if hit(state, key, map, i) {
            ok = ok | 1 << i;
        }
    }
    ok
}
