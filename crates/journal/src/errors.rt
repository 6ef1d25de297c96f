// Why a journal is not read further, and why a record is not written.
ghost use Rattle.std.specs.Prelude.{◌≡◌};
ghost use Rattle.journal.specs.Journal.{error_number};
ghost use Rattle.journal.specs.Writes.{refusal_number};

use std::error::Error;
use std::fmt;

// `TooLarge`: the journal is above 65,536 bytes. `Version`: its version byte is missing or another. `Record`: a record is cut or
// does not fit, or has an unknown kind, cap byte or mode.
#[derive(Clone, Copy, Debug, PartialEq, Eq)]
pub enum JournalError {
    TooLarge,
    Version,
    Record,
}

impl JournalError {
    // The number that a transcript's last line has for it.
    pub fn number(self) -> u32
        ensures { result ≡ error_number self }
    {
        match self {
            JournalError::TooLarge => 24,
            JournalError::Version => 28,
            JournalError::Record => 27,
        }
    }
}

impl fmt::Display for JournalError {
    fn fmt<W: fmt::Write>(&self, f: &mut fmt::Formatter<W>) -> fmt::Result {
        f.write_str(match self {
            JournalError::TooLarge => "the journal is above 65,536 bytes",
            JournalError::Version => "the journal's version byte is missing or unknown",
            JournalError::Record => "a record is cut or does not fit",
        })
    }
}

impl Error for JournalError {}

// `Unfit`: the reader could not give the record: its version or kind is unknown, its mode is above 2, or its text is too long.
// `Room`: the buffer is too short.
#[derive(Clone, Copy, Debug, PartialEq, Eq)]
pub enum WriteError {
    Unfit,
    Room,
}

impl WriteError {
    pub fn number(self) -> u32
        ensures { result ≡ refusal_number self }
    {
        match self {
            WriteError::Unfit => 1,
            WriteError::Room => 12,
        }
    }
}

impl fmt::Display for WriteError {
    fn fmt<W: fmt::Write>(&self, f: &mut fmt::Formatter<W>) -> fmt::Result {
        f.write_str(match self {
            WriteError::Unfit => "the reader could not give the record",
            WriteError::Room => "the buffer is too short",
        })
    }
}

impl Error for WriteError {}
