// The static library: every function of the crate `qamhudeer` under its own name, as C calls it, with the same promise. Assumes nothing.
#![tactic(auto)]

ghost use Rattle.std.specs.Prelude.{◌≡◌, if◌then◌else◌};
ghost use Rattle.qamhudeer.specs.Version.{VERSION};
ghost use Rattle.qamhudeer.specs.image.Image.{STATE, CHANNEL, LOCKS, WAITERS, WAITING, OPENS, LAST, CHANNELS};
ghost use Rattle.display.specs.Display.{DISPLAY};
ghost use Rattle.qamhudeer.specs.sizes.Sizes.{TABLE, REPLIES, ANSWER, PORT, ROOM, RECORDS};
ghost use Rattle.qamhudeer.specs.handed.Handed.{request_of};
ghost use Rattle.qamhudeer.specs.starting.Starting.{Started};
ghost use Rattle.qamhudeer.specs.boundary.Boundary.{Crossed};
ghost use Rattle.qamhudeer.specs.waiting_list.WaitingList.{Tells};
ghost use Rattle.qamhudeer.specs.saving.Saving.{TEXT, Saves};
ghost use Rattle.qamhudeer.specs.loading.Loading.{Loads};
ghost use Rattle.qamhudeer.specs.saving2.Saving2.{TEXT2, Saves2};
ghost use Rattle.qamhudeer.specs.loading2.Loading2.{Loads2};
ghost use Rattle.qamhudeer.specs.moving.Moving.{MovesNew, MovesOld};
ghost use Rattle.qamhudeer.specs.fragments.Fragments.{Feeds};
ghost use Rattle.qamhudeer.specs.last_line.LastLine.{Ends};
ghost use Rattle.qamhudeer.specs.stereo.Stereo.{Listed, accepts};

// ---- the version, sizes and places, for the header to be held against

#[unsafe(no_mangle)]
pub extern "C" fn qamhudeer_version() -> u32
    ensures { result ≡ VERSION }
{
    qamhudeer::qamhudeer_version()
}

#[unsafe(no_mangle)]
pub extern "C" fn qamhudeer_state_size() -> usize
    ensures { result ≡ STATE }
{
    qamhudeer::qamhudeer_state_size()
}

#[unsafe(no_mangle)]
pub extern "C" fn qamhudeer_table_size() -> usize
    ensures { result ≡ TABLE }
{
    qamhudeer::qamhudeer_table_size()
}

#[unsafe(no_mangle)]
pub extern "C" fn qamhudeer_replies_size() -> usize
    ensures { result ≡ REPLIES }
{
    qamhudeer::qamhudeer_replies_size()
}

#[unsafe(no_mangle)]
pub extern "C" fn qamhudeer_answer_size() -> usize
    ensures { result ≡ ANSWER }
{
    qamhudeer::qamhudeer_answer_size()
}

#[unsafe(no_mangle)]
pub extern "C" fn qamhudeer_port_size() -> usize
    ensures { result ≡ PORT }
{
    qamhudeer::qamhudeer_port_size()
}

#[unsafe(no_mangle)]
pub extern "C" fn qamhudeer_room_size() -> usize
    ensures { result ≡ ROOM }
{
    qamhudeer::qamhudeer_room_size()
}

#[unsafe(no_mangle)]
pub extern "C" fn qamhudeer_display_size() -> usize
    ensures { result ≡ DISPLAY }
{
    qamhudeer::qamhudeer_display_size()
}

#[unsafe(no_mangle)]
pub extern "C" fn qamhudeer_records_size() -> usize
    ensures { result ≡ RECORDS }
{
    qamhudeer::qamhudeer_records_size()
}

#[unsafe(no_mangle)]
pub extern "C" fn qamhudeer_text_size() -> usize
    ensures { result ≡ TEXT }
{
    qamhudeer::qamhudeer_text_size()
}

#[unsafe(no_mangle)]
pub extern "C" fn qamhudeer_text2_size() -> usize
    ensures { result ≡ TEXT2 }
{
    qamhudeer::qamhudeer_text2_size()
}

#[unsafe(no_mangle)]
pub extern "C" fn qamhudeer_channel_size() -> usize
    ensures { result ≡ CHANNEL }
{
    qamhudeer::qamhudeer_channel_size()
}

#[unsafe(no_mangle)]
pub extern "C" fn qamhudeer_offset_of_locks() -> usize
    ensures { result ≡ LOCKS }
{
    qamhudeer::qamhudeer_offset_of_locks()
}

#[unsafe(no_mangle)]
pub extern "C" fn qamhudeer_offset_of_waiters() -> usize
    ensures { result ≡ WAITERS }
{
    qamhudeer::qamhudeer_offset_of_waiters()
}

#[unsafe(no_mangle)]
pub extern "C" fn qamhudeer_offset_of_waiting() -> usize
    ensures { result ≡ WAITING }
{
    qamhudeer::qamhudeer_offset_of_waiting()
}

#[unsafe(no_mangle)]
pub extern "C" fn qamhudeer_offset_of_opens() -> usize
    ensures { result ≡ OPENS }
{
    qamhudeer::qamhudeer_offset_of_opens()
}

#[unsafe(no_mangle)]
pub extern "C" fn qamhudeer_offset_of_last() -> usize
    ensures { result ≡ LAST }
{
    qamhudeer::qamhudeer_offset_of_last()
}

#[unsafe(no_mangle)]
pub extern "C" fn qamhudeer_offset_of_channels() -> usize
    ensures { result ≡ CHANNELS }
{
    qamhudeer::qamhudeer_offset_of_channels()
}

// ---- a fresh device, and a call

// A fresh device of four or eight channels: 0. Another number of channels, or memory of another size: 1, and nothing moves.
#[unsafe(no_mangle)]
pub extern "C" fn qamhudeer_fresh(
    channels: u8,
    state: &mut [u8],
    table: &mut [u8],
    display: &mut [u8],
) -> u8
    ensures { Started channels state.old table.old display.old
        result state.new table.new display.new }
{
    qamhudeer::qamhudeer_fresh(channels, state, table, display)
}

// A desk's call: the number of replies, of which the answer's last two bytes tell how many are desk A's and desk B's; 255 where the
// answer is not lent eight bytes or the display not 18, and nothing moves.
#[unsafe(no_mangle)]
pub extern "C" fn qamhudeer_call(
    desk: u8,
    op: u8,
    id: u8,
    flags: u8,
    map: u8,
    prec: u8,
    key: u16,
    combos: &[u8],
    state: &mut [u8],
    table: &mut [u8],
    display: &mut [u8],
    replies: &mut [u8],
    answer: &mut [u8],
) -> usize
    ensures { Crossed op (request_of desk op id flags map prec key) combos.now
        state.old table.old display.old replies.old answer.old
        result state.new table.new display.new replies.new answer.new }
{
    qamhudeer::qamhudeer_call(
        desk, op, id, flags, map, prec, key, combos, state, table, display, replies, answer,
    )
}

// ---- a log over a slow line

// A fragment of a log up to its first LF, or all of it: 0, how much of it is used, and how much output stands in front of `out`: that
// of one line at most. No port, or no display: 1. Room for less than one line's output: 12. After a refusal both numbers are 0, and
// nothing moves.
#[unsafe(no_mangle)]
pub extern "C" fn qamhudeer_feed(
    fragment: &[u8],
    port: &mut [u8],
    state: &mut [u8],
    table: &mut [u8],
    display: &mut [u8],
    out: &mut [u8],
    used: &mut usize,
    written: &mut usize,
) -> u8
    ensures { Feeds fragment.now port.old state.old table.old display.old out.old
        result used.new written.new port.new state.new table.new display.new out.new }
{
    qamhudeer::qamhudeer_feed(fragment, port, state, table, display, out, used, written)
}

// The log has ended: what stands of a last line is answered, and where nothing stands nothing is written.
#[unsafe(no_mangle)]
pub extern "C" fn qamhudeer_feed_end(
    port: &mut [u8],
    state: &mut [u8],
    table: &mut [u8],
    display: &mut [u8],
    out: &mut [u8],
    written: &mut usize,
) -> u8
    ensures { Ends port.old state.old table.old display.old out.old
        result written.new port.new state.new table.new display.new out.new }
{
    qamhudeer::qamhudeer_feed_end(port, state, table, display, out, written)
}

// ---- who waits

// A record of four bytes for each waiting request, in order: 0 and their number. Bytes that hold no sound state: 1. Room for fewer than
// 64 records: 5. After a refusal the number is 0, and nothing is written.
#[unsafe(no_mangle)]
pub extern "C" fn qamhudeer_waiting(
    state: &[u8],
    table: &[u8],
    records: &mut [u8],
    count: &mut usize,
) -> u8
    ensures { Tells state.now table.now records.old result count.new records.new }
{
    qamhudeer::qamhudeer_waiting(state, table, records, count)
}

// ---- saved states

// The text of a state: 0 and its length. Bytes that hold no sound state: 1. Eight channels: 10. Room that is too short: 12. After a
// refusal the length is 0, and nothing is written.
#[unsafe(no_mangle)]
pub extern "C" fn qamhudeer_save(
    state: &[u8],
    table: &[u8],
    text: &mut [u8],
    written: &mut usize,
) -> u8
    ensures { Saves state.now table.now text.old result written.new text.new }
{
    qamhudeer::qamhudeer_save(state, table, text, written)
}

// The state of a saved text, its table and its display: 0. Memory of another size: 1. A text that was not saved, or another number of
// channels than 4: 9. After a refusal nothing has moved.
#[unsafe(no_mangle)]
pub extern "C" fn qamhudeer_load(
    channels: u8,
    text: &[u8],
    state: &mut [u8],
    table: &mut [u8],
    display: &mut [u8],
) -> u8
    ensures { Loads channels text.now state.old table.old display.old
        result state.new table.new display.new }
{
    qamhudeer::qamhudeer_load(channels, text, state, table, display)
}

// ---- saved states, second form

// The text of a state of either board: 0 and its length. Bytes that hold no sound state, or a display that disagrees with a count: 1.
// Room that is too short: 12. After a refusal the length is 0, and nothing is written.
#[unsafe(no_mangle)]
pub extern "C" fn qamhudeer_save2(
    state: &[u8],
    table: &[u8],
    display: &[u8],
    text: &mut [u8],
    written: &mut usize,
) -> u8
    ensures { Saves2 state.now table.now display.now text.old result written.new text.new }
{
    qamhudeer::qamhudeer_save2(state, table, display, text, written)
}

// As `qamhudeer_load`, of a text of the second form, for 4 or 8 channels.
#[unsafe(no_mangle)]
pub extern "C" fn qamhudeer_load2(
    channels: u8,
    text: &[u8],
    state: &mut [u8],
    table: &mut [u8],
    display: &mut [u8],
) -> u8
    ensures { Loads2 channels text.now state.old table.old display.old
        result state.new table.new display.new }
{
    qamhudeer::qamhudeer_load2(channels, text, state, table, display)
}

// A text of the first form in the second: 0 and its length. No such text: 9. Room that is too short: 12. After a refusal the length is
// 0, and nothing is written.
#[unsafe(no_mangle)]
pub extern "C" fn qamhudeer_to_new(from: &[u8], text: &mut [u8], written: &mut usize) -> u8
    ensures { MovesNew from.now text.old result written.new text.new }
{
    qamhudeer::qamhudeer_to_new(from, text, written)
}

// A text of the second form in the first: 0 and its length. A text that neither board's loader takes: 9. One of eight channels: 10.
// Room that is too short: 12. After a refusal the length is 0, and nothing is written.
#[unsafe(no_mangle)]
pub extern "C" fn qamhudeer_to_old(from: &[u8], text: &mut [u8], written: &mut usize) -> u8
    ensures { MovesOld from.now text.old result written.new text.new }
{
    qamhudeer::qamhudeer_to_old(from, text, written)
}

// ---- lists for stereo

// All maps with so many left and so many right channels, ascending: 0 and their number. A number above 2: 11. Room for fewer than 4
// maps: 12. After a refusal the number is 0, and nothing is written.
#[unsafe(no_mangle)]
pub extern "C" fn qamhudeer_stereo(left: u8, right: u8, maps: &mut [u8], count: &mut usize) -> u8
    ensures { Listed left right maps.old result count.new maps.new }
{
    qamhudeer::qamhudeer_stereo(left, right, maps, count)
}

// 1 where the list holds each of these maps once and nothing else, else 0.
#[unsafe(no_mangle)]
pub extern "C" fn qamhudeer_stereo_accepts(left: u8, right: u8, maps: &[u8]) -> u8
    ensures { result ≡ (if accepts left right maps.now then 1 else 0) }
{
    qamhudeer::qamhudeer_stereo_accepts(left, right, maps)
}
