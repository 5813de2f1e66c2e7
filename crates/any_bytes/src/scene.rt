// What a call is given beside the request, and the ways to change it. Assumes nothing.
use crate::terms::at;
use crate::{same, terms};
use arbiter::decoding;
use channel::Channel;
use image::board::{Board, Outcome};
use image::store::State;
use open_keys::Keys;
use queue::Queue;
use show::answers::Request;
use std::array;

// A board, the bytes of which the first `lent` are lent as the table, how many bytes of reply list are lent, and how many zeros
// stand in the place of the frame's combinations, if any do.
#[derive(Clone, Copy)]
pub struct Scene {
    pub board: Board,
    pub table: [u8; 1500],
    pub lent: usize,
    pub room: usize,
    pub zeros: usize,
}

// ---- a request, of its id's desk

fn ask(w: &[u8]) -> Request {
    Request {
        desk: desks::of(at(w, 1)),
        command: at(w, 0),
        id: at(w, 1),
        flags: at(w, 2),
        map: at(w, 3),
        prec: handed::stored(at(w, 4)),
        key: terms::pair(at(w, 5), at(w, 6)),
    }
}

// ---- a call

// A reply list in which no byte is like its neighbours.
fn pattern() -> [u8; 400] {
    array::from_fn(|i| (i % 251) as u8)
}

// The call on the board's bytes, and on the first bytes of the table and of the reply list.
fn cut(
    s: Board,
    w: &[u8],
    n: usize,
    table: &mut [u8],
    lent: usize,
    display: &mut [u8; 18],
    list: &mut [u8],
    room: usize,
) -> Outcome {
    let k = lent.min(table.len());
    let m = room.min(list.len());
    let r = ask(w);
    let op = handed::op_of(r.command);
    let mut bytes = [0u8; 823];
    encoding::save(s, &mut bytes);
    let d = arbiter::call(
        op,
        r,
        &mut bytes,
        terms::part(w, 7, n),
        &mut table[..k],
        display,
        &mut list[..m],
    );
    let a = d.answer;
    let t = decoding::load(&bytes);
    Outcome {
        answer: a,
        state: t,
        n: d.n,
    }
}

// The same with arrays, whose lengths need no proof.
fn make(
    s: Board,
    w: &[u8],
    n: usize,
    table: &mut [u8; 1500],
    lent: usize,
    display: &mut [u8; 18],
    list: &mut [u8; 400],
    room: usize,
) -> Outcome {
    cut(s, w, n, table, lent, display, list, room)
}

fn tell(
    d: Outcome,
    s: Board,
    before: &[u8; 1500],
    table: &[u8; 1500],
    clean: &[u8; 400],
    list: &[u8; 400],
) {
    let t = d.state;
    show::text(b": ");
    show::answer(d.answer);
    show::text(b", replies ");
    show::count(d.n);
    show::records(list, d.n);
    let beyond = d.n.min(66) * 6;
    show::moved(
        same::states(s, t),
        same::bytes(before, table, 0),
        same::bytes(clean, list, beyond),
    );
}

// ---- what a word says

// Where byte k of an id's entry stands in the table.
fn place(id: u8, k: u8) -> usize {
    usize::from(id) * 23 + usize::from(k)
}

// The queue with another count, and another id at a place.
fn edited(q: Queue, w: &[u8]) -> Queue {
    let mut ids = q.ids;
    let k = usize::from(at(w, 2));
    if k < 64 {
        ids[k] = at(w, 3);
    }
    Queue { n: at(w, 1), ids }
}

// The open keys with another count, and another key at a place.
fn opened(q: Keys, w: &[u8]) -> Keys {
    let mut keys = q.keys;
    let k = usize::from(at(w, 1));
    if k < Keys::ROOM {
        keys[k] = terms::pair(at(w, 2), at(w, 3));
    }
    Keys { n: at(w, 0), keys }
}

impl Scene {
    // Any number of channels may be said, and 0 is four.
    pub fn new(channels: u8) -> Self {
        let width = if channels == 0 { Board::FOUR } else { channels };
        let board = Board::fresh(width);
        Scene {
            board,
            table: [0u8; 1500],
            lent: 1472,
            room: 390,
            zeros: 0,
        }
    }

    // How many bytes a word has, with the zeros that are asked for.
    pub fn length(self, n: usize) -> usize {
        if self.zeros == 0 {
            n
        } else {
            self.zeros.min(1000000) + 7
        }
    }

    // Makes the call of a frame and the combinations behind it, n bytes, says what came of it, and hands on what it left.
    pub fn call(self, w: &[u8], n: usize) -> Self {
        let s = self.board;
        let before = self.table;
        let mut table = self.table;
        let clean = pattern();
        let mut list = clean;
        let mut display = [0u8; 18];
        let d = make(
            s,
            w,
            n,
            &mut table,
            self.lent,
            &mut display,
            &mut list,
            self.room,
        );
        tell(d, s, &before, &table, &clean, &list);
        let t = d.state;
        Scene {
            board: t,
            table,
            lent: self.lent,
            room: self.room,
            zeros: 0,
        }
    }

    // ---- changes

    fn with_byte(mut self, at: usize, b: u8) -> Self {
        let mut table = self.table;
        if at < 1500 {
            table[at] = b;
        }
        self.table = table;
        self
    }

    fn state(self) -> State {
        let b = self.board;
        b.state
    }

    fn with_state(mut self, s: State) -> Self {
        let b = self.board;
        let c = Board {
            width: b.width,
            state: s,
        };
        self.board = c;
        self
    }

    fn with_opens(self, w: &[u8]) -> Self {
        let mut s = self.state();
        let q = s.opens;
        s.opens = opened(q, w);
        self.with_state(s)
    }

    fn with_channel(self, i: usize, c: Channel) -> Self {
        let mut s = self.state();
        let mut cs = s.channels;
        if i < 8 {
            cs[i] = c;
        }
        s.channels = cs;
        self.with_state(s)
    }

    fn channel(self, i: usize) -> Channel {
        let s = self.state();
        let cs = s.channels;
        if i < 8 { cs[i] } else { Channel::unused() }
    }

    // The writes of a channel, the locks at place 8, the WAITCYCLEs at 9, the waiting requests at any other.
    fn queue(self, place: usize) -> Queue {
        let s = self.state();
        let c = self.channel(place);
        let writes = c.writes;
        let locks = s.locks;
        let waiters = s.waiters;
        let waiting = s.waiting;
        match place {
            0..=7 => writes,
            8 => locks,
            9 => waiters,
            _ => waiting,
        }
    }

    fn with_queue(self, place: usize, q: Queue) -> Self {
        if place < 8 {
            let c = self.channel(place);
            return self.with_channel(place, c.with_writes(q));
        }
        let mut s = self.state();
        match place {
            8 => s.locks = q,
            9 => s.waiters = q,
            _ => s.waiting = q,
        }
        self.with_state(s)
    }

    fn with_edit(self, place: usize, w: &[u8]) -> Self {
        let q = self.queue(place);
        self.with_queue(place, edited(q, w))
    }

    fn with_numbers(self, i: usize, w: &[u8]) -> Self {
        let c = self.channel(i);
        let writes = c.writes;
        let d = Channel {
            key: terms::pair(at(w, 1), at(w, 2)),
            prec: handed::stored(at(w, 3)),
            locked: at(w, 4) == 1,
            stopped: at(w, 5) == 1,
            writes,
        };
        self.with_channel(i, d)
    }

    // The sizes of what is lent.
    fn with_size(mut self, kind: u8, n: usize) -> Self {
        match kind {
            b'T' => self.lent = n,
            b'R' => self.room = n,
            b'Z' => self.zeros = n,
            _ => {}
        }
        self
    }

    // The change that a word says.
    pub fn changed(self, kind: u8, w: &[u8]) -> Self {
        let first = at(w, 0);
        match kind {
            b'N' => Scene::new(first),
            b'B' => self.with_byte(place(first, at(w, 1)), at(w, 2)),
            b'C' => self.with_numbers(usize::from(first), w),
            b'W' => self.with_edit(usize::from(first), w),
            b'O' => self.with_opens(w),
            _ => self.with_size(kind, terms::triple(first, at(w, 1), at(w, 2))),
        }
    }
}
