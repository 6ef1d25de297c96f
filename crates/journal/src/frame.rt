// The frame of a journal: its version byte, and its records one after another.
ghost use Rattle.std.specs.Prelude.{◌≡◌};
ghost use Rattle.journal.specs.Journal.{start_of, next_in};

use super::numbers::number_at;
use super::records::read_record;
use super::{JournalError, Record, Version};

// The most bytes that a journal has.
const JOURNAL_MOST: usize = 65536;

// The version of a journal's records, which begin at byte 1.
#[tactic(auto, using(crate::proofs::FrameLaws::start_faults))]
pub fn start_of(journal: &[u8]) -> Result<Version, JournalError>
    ensures { result ≡ start_of journal.now }
{
    if JOURNAL_MOST < journal.len() {
        return Err(JournalError::TooLarge);
    }
    if journal.is_empty() {
        return Err(JournalError::Version);
    }
    Version::try_from(journal[0])
}

// The next record of the part of a journal that is left, with how many bytes it takes with its length; none at the end. Its
// reader is handed the part that starts after the length.
#[tactic(auto, using(crate::proofs::FrameLaws::nexts))]
pub fn next_record(v: Version, rest: &[u8]) -> Result<Option<(Record, usize)>, JournalError>
    ensures { result ≡ next_in v rest.now }
{
    if rest.is_empty() {
        return Ok(None);
    }
    let Some(n) = number_at(rest, 0, 2) else {
        return Err(JournalError::Record);
    };
    let len = n as usize;
    if rest.len() - 2 < len {
        return Err(JournalError::Record);
    }
    let end = 2 + len;
    let r = read_record(v, &rest[2..end])?;
    Ok(Some((r, end)))
}
