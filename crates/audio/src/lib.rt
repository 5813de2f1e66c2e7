// The numbers of exec/io.h, exec/errors.h, devices/audio.h and include/qamhudeer.h, by their names there; the arbiter's own without
// QAMHUDEER_ in front. An error is the byte that a reply and the log show. What each means is said in machine's specs/Numbers.antt, and
// proved of the code that names it here. Assumes nothing.
#![tactic(auto)]

ghost use Rattle.std.specs.Prelude.{◌≡◌};
ghost use Rattle.audio.specs.Commands.{command_number, Numbered};

// ---- commands

pub const CMD_RESET: u8 = 1;

pub const CMD_READ: u8 = 2;

pub const CMD_WRITE: u8 = 3;

pub const CMD_UPDATE: u8 = 4;

pub const CMD_CLEAR: u8 = 5;

pub const CMD_STOP: u8 = 6;

pub const CMD_START: u8 = 7;

pub const CMD_FLUSH: u8 = 8;

pub const ADCMD_FREE: u8 = 9;

pub const ADCMD_SETPREC: u8 = 10;

pub const ADCMD_FINISH: u8 = 11;

pub const ADCMD_PERVOL: u8 = 12;

pub const ADCMD_LOCK: u8 = 13;

pub const ADCMD_WAITCYCLE: u8 = 14;

pub const ADCMD_ALLOCATE: u8 = 32;

// A command, by its name in devices/audio.h.
#[derive(Clone, Copy)]
pub enum Command {
    Reset,
    Read,
    Write,
    Update,
    Clear,
    Stop,
    Start,
    Flush,
    Free,
    SetPrec,
    Finish,
    PerVol,
    Lock,
    WaitCycle,
    Allocate,
}

// The number is no command's.
#[derive(Clone, Copy)]
pub struct UnknownCommand;

impl Command {
    pub fn number(self) -> u8
        ensures { result ≡ command_number self }
    {
        match self {
            Command::Reset => CMD_RESET,
            Command::Read => CMD_READ,
            Command::Write => CMD_WRITE,
            Command::Update => CMD_UPDATE,
            Command::Clear => CMD_CLEAR,
            Command::Stop => CMD_STOP,
            Command::Start => CMD_START,
            Command::Flush => CMD_FLUSH,
            Command::Free => ADCMD_FREE,
            Command::SetPrec => ADCMD_SETPREC,
            Command::Finish => ADCMD_FINISH,
            Command::PerVol => ADCMD_PERVOL,
            Command::Lock => ADCMD_LOCK,
            Command::WaitCycle => ADCMD_WAITCYCLE,
            Command::Allocate => ADCMD_ALLOCATE,
        }
    }
}

impl TryFrom<u8> for Command {
    type Error = UnknownCommand;

    ghost try_from_gives = { Numbered };

    fn try_from(number: u8) -> Result<Self, UnknownCommand> {
        match number {
            CMD_RESET => Ok(Command::Reset),
            CMD_READ => Ok(Command::Read),
            CMD_WRITE => Ok(Command::Write),
            CMD_UPDATE => Ok(Command::Update),
            CMD_CLEAR => Ok(Command::Clear),
            CMD_STOP => Ok(Command::Stop),
            CMD_START => Ok(Command::Start),
            CMD_FLUSH => Ok(Command::Flush),
            ADCMD_FREE => Ok(Command::Free),
            ADCMD_SETPREC => Ok(Command::SetPrec),
            ADCMD_FINISH => Ok(Command::Finish),
            ADCMD_PERVOL => Ok(Command::PerVol),
            ADCMD_LOCK => Ok(Command::Lock),
            ADCMD_WAITCYCLE => Ok(Command::WaitCycle),
            ADCMD_ALLOCATE => Ok(Command::Allocate),
            _ => Err(UnknownCommand),
        }
    }
}

// ---- errors

pub const IOERR_ABORTED: u8 = 254;

pub const ADIOERR_NOALLOCATION: u8 = 246;

pub const ADIOERR_ALLOCFAILED: u8 = 245;

pub const ADIOERR_CHANNELSTOLEN: u8 = 244;

// ---- the arbiter's own refusals

pub const UNSOUND: u8 = 1;

pub const MALFORMED: u8 = 7;

pub const BADWISH: u8 = 11;

pub const TOOSMALL: u8 = 12;

// No id, and no other extra byte of an answer.
pub const NONE: u8 = 255;

// ---- sizes, in bytes

pub const STATE_SIZE: usize = 823;

pub const CHANNEL_SIZE: usize = 70;

// A number, and 64 ids.
pub const QUEUE_SIZE: usize = 65;

pub const TABLE_SIZE: usize = 1472;

pub const DISPLAY_SIZE: usize = 18;

// 64 replies of six bytes; and the half of them for one desk.
pub const REPLIES_SIZE: usize = 384;

pub const HALF_SIZE: usize = 192;

// 64 records of four bytes, of those who wait.
pub const RECORDS_SIZE: usize = 256;

pub const ANSWER_SIZE: usize = 8;

// What one line of a log may bring: 64 replies and an answer.
pub const ROOM_SIZE: usize = 973;

// As much of a line as is kept: the longest frame, and one character more.
pub const LINE_SIZE: usize = 527;

// The combinations of the longest frame.
pub const LIST_SIZE: usize = 255;

// The most maps that a wish for stereo has.
pub const STEREO_ROOM: usize = 4;

// ---- places in the bytes of a channel

pub const CHANNEL_PRECEDENCE: usize = 2;

pub const CHANNEL_LOCKED: usize = 3;

pub const CHANNEL_STOPPED: usize = 4;

pub const CHANNEL_WRITES: usize = 5;
