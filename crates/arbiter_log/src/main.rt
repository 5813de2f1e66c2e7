// The log program: a log on standard input, its output on standard output, in constant memory. Its first argument is the number of
// channels, 4 or 8, and 4 where it is anything else or left out. Its second is a word of five letters at most: where c is among them, the
// board's channels are told after each line, and where d is, then the wall display; where l is, it goes on from the saved text on
// descriptor 3, and where s is, the text of the state at the end goes to descriptor 4; where t is, these texts are of the second form. It
// reads, calls `beginning`, `paging`, `finishing` and `keeping`, and writes: what is read and written is the C library's to say, and that
// each page is passed to `write` as it was handed back stands in `lump` and `last` to be read.
#![tactic(auto)]

ghost use Rattle.std.specs.Prelude.{T, ◌≤◌, length, IfOk};
ghost use Rattle.image.specs.board.Board.{sized};
ghost use Rattle.arbiter_log.specs.Desk.{Ready};

use beginning::taking::Show;
use beginning::{finishing, paging, saving2};
use image::board::Board;
use keeping::{decoding, saving};
use std::env::Env;
use std::io::{ErrorKind, Read, Write};
use std::process::ExitCode;

const STDERR: i32 = 2;

// The status where whoever reads the output has gone: that of a program which the signal SIGPIPE ends. Today's programs ignore the signal.
const GONE: u8 = 141;

// The descriptor that ./arbiter-log opens, where it has the file.
const SAVED: i32 = 4;

// What the second word asks for.
#[derive(Drop)]
struct Asked {
    show: Show,
    load: bool,
    save: bool,
    second: bool,
}

// Why the log ends early: whoever reads the output has gone, which is no failure to be told; or reading or writing failed, and that is
// told.
#[derive(Clone, Copy)]
enum Stopped {
    Gone,
    Failed,
}

// What is kept from lump to lump of input: the state in its bytes, its table and its display; the line that has not ended, of which
// `started` bytes stand; and the page that the output is put on.
#[derive(Drop)]
struct Desk {
    show: Show,
    state: [u8; audio::STATE_SIZE],
    table: [u8; audio::TABLE_SIZE],
    display: [u8; audio::DISPLAY_SIZE],
    line: [u8; audio::LINE_SIZE],
    started: usize,
    page: [u8; 65536],
    ghost ready: { Ready started state table display page },
}

// To the output, all of it.
fn write(rt: &HostRuntime, text: &[u8]) -> Result<(), Stopped> {
    if let Err(e) = rt.stdout().write_all(text) {
        if e.kind() == ErrorKind::BrokenPipe {
            return Err(Stopped::Gone);
        }
        let _ = eprintln!(rt; "write: {e}");
        return Err(Stopped::Failed);
    }
    Ok(())
}

// A part of the input, and how long it is. No bytes are the end of the log; an error is not, so what stands of a line is not answered.
fn read(rt: &HostRuntime, input: &mut [u8]) -> Result<usize, Stopped>
    ensures { IfOk result (λ n. n ≤ length input.new) }
{
    match rt.stdin().read(input) {
        Ok(n) => Ok(n),
        Err(e) => {
            let _ = eprintln!(rt; "read: {e}");
            Err(Stopped::Failed)
        }
    }
}

impl Desk {
    // All of a lump, page by page.
    fn lump(&mut self, rt: &HostRuntime, input: &[u8]) -> Result<(), Stopped> {
        let mut rest = input;
        while !rest.is_empty() {
            let left = paging::fill(
                self.show,
                &mut self.state,
                &mut self.line,
                self.started,
                rest,
                &mut self.table,
                &mut self.display,
                &mut self.page,
                0,
            );
            self.started = left.line;
            write(rt, &self.page[..left.at])?;
            rest = &rest[left.used..];
        }
        Ok(())
    }

    // The log, to its end. A proved loop has to end, and nothing says that an input does: so there is a last turn, which no run reaches.
    fn lumps(&mut self, rt: &HostRuntime) -> Result<(), Stopped> {
        let mut input = io::large_buffer();
        for _ in 0..u64::MAX {
            let n = read(rt, &mut input)?;
            if n == 0 {
                break;
            }
            self.lump(rt, &input[..n])?;
        }
        Ok(())
    }

    // The log has ended: what stands of a last line is answered.
    fn last(&mut self, rt: &HostRuntime) -> Result<(), Stopped> {
        let left = finishing::finish(
            self.show,
            &mut self.state,
            &self.line,
            self.started,
            &mut self.table,
            &mut self.display,
            &mut self.page,
            0,
        );
        self.started = left.line;
        write(rt, &self.page[..left.at])
    }

    // The log, and what stands of a last line.
    fn play(&mut self, rt: &HostRuntime) -> Result<(), Stopped> {
        self.lumps(rt)?;
        self.last(rt)
    }

    // The text of the state at the end, in the form that was asked for. Eight channels have none of the first.
    fn keep(&self, second: bool) {
        let board = decoding::load(&self.state);
        let mut page = [0u8; saving2::LONGEST];
        let n = if second {
            saving2::spell2(board, &self.table, &mut page)
        } else {
            keeping::first_form(board, &self.table, &mut page[..saving::LONGEST])
        };
        saved(&page[..n]);
    }
}

// A text, to where it is saved.
fn saved(text: &[u8]) {
    let ok = io::write_all(SAVED, text);
    if !ok {
        io::write_all(STDERR, b"save: the text could not be written\n");
    }
}

// How many channels the board has.
fn width(rt: &HostRuntime) -> u8
    ensures { T (sized result) }
{
    let mut word = [0u8; 2];
    match rt.arg(1, &mut word) {
        Ok(1) if word[0] == b'8' => Board::EIGHT,
        _ => Board::FOUR,
    }
}

// What the second word asks for.
fn words(rt: &HostRuntime) -> Asked {
    let mut word = [0u8; 5];
    // of a longer word the first five letters stand there
    let _ = rt.arg(2, &mut word);
    let show = Show {
        channels: word.contains(&b'c'),
        display: word.contains(&b'd'),
    };
    Asked {
        show,
        load: word.contains(&b'l'),
        save: word.contains(&b's'),
        second: word.contains(&b't'),
    }
}

fn main(rt: HostRuntime) -> ExitCode {
    let asked = words(&rt);
    let mut table = [0u8; audio::TABLE_SIZE];
    let mut display = [0u8; audio::DISPLAY_SIZE];
    let Some(board) = beginning::begin(
        asked.load,
        asked.second,
        width(&rt),
        &mut table,
        &mut display,
    ) else {
        io::write_all(STDERR, b"the text is refused\n");
        return ExitCode::SUCCESS;
    };
    let mut state = [0u8; audio::STATE_SIZE];
    encoding::save(board, &mut state);
    let mut desk = Desk {
        show: asked.show,
        state,
        table,
        display,
        line: [0u8; audio::LINE_SIZE],
        started: 0,
        page: io::large_buffer(),
    };
    match desk.play(&rt) {
        Ok(()) => {
            if asked.save {
                desk.keep(asked.second);
            }
            ExitCode::SUCCESS
        }
        Err(Stopped::Gone) => ExitCode::from(GONE),
        Err(Stopped::Failed) => ExitCode::SUCCESS,
    }
}
