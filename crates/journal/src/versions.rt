// What differs between the versions of a journal.
ghost use Rattle.std.specs.Prelude.{◌≡◌, ◌≤◌};
ghost use Rattle.journal.specs.Journal.{version_start};
ghost use Rattle.journal.specs.Records.{text_width, text_most, version_numbered};

use super::{JournalError, Version};

// The version of a byte.
impl TryFrom<u8> for Version {
    type Error = JournalError;

    ghost try_from_gives = { λ n r. r ≡ version_start (version_numbered n) };

    fn try_from(n: u8) -> Result<Version, JournalError> {
        match n {
            0x01 => Ok(Version::V01),
            0x02 => Ok(Version::V02),
            _ => Err(JournalError::Version),
        }
    }
}

impl Version {
    // The most bytes that a text has.
    pub fn text_most(self) -> u64
        ensures { (result ≡ text_most self) × (result ≤ 1024) }
    {
        match self {
            Version::V01 => 255,
            Version::V02 => 1024,
        }
    }

    // How many bytes its length has.
    pub fn text_width(self) -> usize
        ensures { (result ≡ text_width self) × (result ≤ 2) }
    {
        match self {
            Version::V01 => 1,
            Version::V02 => 2,
        }
    }
}
