// How a run ends.
ghost use Rattle.std.specs.Prelude.{◌≡◌};
ghost use Rattle.epg_report.specs.Codes.{code_of};

use air_model::Rule;
use journal_model::Outcome;
use mux_config::MuxFault;

/// What is read: the input, the text of a feed, by its number, or a recording; a checkpoint counts as one.
#[derive(Clone, Copy, PartialEq, Eq)]
pub enum Origin {
    Input,
    Feed(u8),
    Recording,
}

/// Where bytes go: to the air, or to the report.
#[derive(Clone, Copy, PartialEq, Eq)]
pub enum Outlet {
    Air,
    Report,
}

/// How a run ended.
#[derive(Clone, Copy, PartialEq, Eq)]
pub enum Status {
    /// Valid input, read to its end, and no fault.
    Done,
    /// The words are no command line.
    Usage,
    /// This line of the input, from 1, is the first behind the description of the multiplex that is no command there.
    BadScript(u64),
    /// The outcome line with this number keeps the first outcome, and the desk's is the second.
    Disagrees(u64, Outcome, Outcome),
    /// The description of the multiplex has this fault.
    BadMux(MuxFault),
    /// In the text of this feed, this line is the first that is no edit.
    BadFeed(u8, u64),
    /// This packet, from 0, is the first that is none.
    BadStream(u64),
    /// The text goes on past its limit.
    TooLong(Origin),
    /// The text of this feed could not be opened, or with 0 the recording or the checkpoint.
    OpenFault(u8),
    /// The text could not be read.
    ReadFault(Origin),
    /// The bytes could not be written.
    WriteFault(Outlet),
    /// Want of memory.
    Memory,
    /// In this packet, from 0, a section ends that would bring a key more than a receiver keeps.
    TooMany(u64),
    /// The multiplex has no service with this number, for which a viewer was to ask.
    NoView(u16),
    /// This packet, from 0, is the first with which a recording is no part of an air of the journal; it breaks this rule first.
    NotAir(u64, Rule),
    /// The recording ends before this packet, which an air of the journal still has.
    Short(u64),
    /// This line of the checkpoint, from 1, is the first that may not stand there.
    BadCheckpoint(u64),
}

impl Status {
    /// The exit status of the program.
    pub fn code(&self) -> u8
        ensures { result ≡ code_of self.now }
    {
        match self {
            Status::Done => 0,
            Status::Usage => 2,
            Status::BadScript(_) | Status::Disagrees(..) => 3,
            Status::BadMux(_) => 4,
            Status::BadFeed(..) => 5,
            Status::BadStream(_) => 6,
            Status::TooLong(_) => 7,
            Status::OpenFault(_) => 8,
            Status::ReadFault(_) => 9,
            Status::WriteFault(_) => 10,
            Status::Memory => 12,
            Status::TooMany(_) => 13,
            Status::NoView(_) => 14,
            Status::NotAir(..) => 15,
            Status::Short(_) => 16,
            Status::BadCheckpoint(_) => 17,
        }
    }
}
