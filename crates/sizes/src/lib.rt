// Sizes of what a program in C lends, and the places in the state's bytes, for the header to be held against.
// Assumes nothing.
#![tactic(auto)]

ghost use Rattle.std.specs.Prelude.{◌≡◌};
ghost use Rattle.image.specs.Image.{STATE, CHANNEL, LOCKS, WAITERS, WAITING, OPENS, LAST, CHANNELS};
ghost use Rattle.display.specs.Display.{DISPLAY};
ghost use Rattle.sizes.specs.Sizes.{TABLE, REPLIES, ANSWER, PORT, ROOM, RECORDS};

pub fn state_size() -> usize
    ensures { result ≡ STATE }
{
    823
}

pub fn table_size() -> usize
    ensures { result ≡ TABLE }
{
    1472
}

pub fn replies_size() -> usize
    ensures { result ≡ REPLIES }
{
    384
}

pub fn answer_size() -> usize
    ensures { result ≡ ANSWER }
{
    8
}

pub fn port_size() -> usize
    ensures { result ≡ PORT }
{
    529
}

pub fn room_size() -> usize
    ensures { result ≡ ROOM }
{
    973
}

pub fn display_size() -> usize
    ensures { result ≡ DISPLAY }
{
    18
}

pub fn records_size() -> usize
    ensures { result ≡ RECORDS }
{
    256
}

pub fn channel_size() -> usize
    ensures { result ≡ CHANNEL }
{
    70
}

pub fn offset_of_locks() -> usize
    ensures { result ≡ LOCKS }
{
    560
}

pub fn offset_of_waiters() -> usize
    ensures { result ≡ WAITERS }
{
    625
}

pub fn offset_of_waiting() -> usize
    ensures { result ≡ WAITING }
{
    690
}

pub fn offset_of_opens() -> usize
    ensures { result ≡ OPENS }
{
    755
}

pub fn offset_of_last() -> usize
    ensures { result ≡ LAST }
{
    820
}

pub fn offset_of_channels() -> usize
    ensures { result ≡ CHANNELS }
{
    822
}
