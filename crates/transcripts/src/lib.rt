// Writes what the program prints for a journal (the crate printed says it). lines.rt writes the lines, records.rt carries the records out one after
// another, and journals.rt does it for a whole journal.
#![tactic(auto)]

ghost use Rattle.std.specs.Prelude.{◌≡◌};
ghost use Rattle.transcripts.specs.Replay.{refusal_number};

mod journals;
mod lines;
mod records;

pub use journals::{replay, replay_into};
use rules::Desk;
use std::error::Error;
use std::fmt;

// Why a journal is not replayed. `Room`: the buffer is too short for its transcript.
#[derive(Clone, Copy, Debug, PartialEq, Eq)]
pub enum ReplayError {
    Room,
}

impl ReplayError {
    pub fn number(self) -> u32
        ensures { result ≡ refusal_number self }
    {
        match self {
            ReplayError::Room => 12,
        }
    }
}

impl fmt::Display for ReplayError {
    fn fmt<W: fmt::Write>(&self, f: &mut fmt::Formatter<W>) -> fmt::Result {
        f.write_str(match self {
            ReplayError::Room => "the buffer is too short for the transcript",
        })
    }
}

impl Error for ReplayError {}

// What a replay gives: the length of the transcript, and the desk after the calls of the journal. Where it is refused no call is
// made, and the desk is a fresh one.
#[derive(Clone, Copy)]
pub struct Replayed {
    pub written: Result<usize, ReplayError>,
    pub desk: Desk,
}
