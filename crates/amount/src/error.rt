// Why an amount is not read or not written.
ghost use Rattle.std.specs.Prelude.{◌≡◌};
ghost use Rattle.amount.specs.Amount.{error_number};

use std::error::Error;
use std::fmt;

#[derive(Clone, Copy, Debug, PartialEq, Eq)]
pub enum AmountError {
    Room,
    Text,
    NotWhole,
    TooLarge,
}

impl AmountError {
    // The number of the refusal.
    pub fn number(self) -> u32
        ensures { result ≡ error_number self }
    {
        match self {
            AmountError::Room => 12,
            AmountError::Text => 22,
            AmountError::NotWhole => 23,
            AmountError::TooLarge => 24,
        }
    }
}

impl fmt::Display for AmountError {
    fn fmt<W: fmt::Write>(&self, f: &mut fmt::Formatter<W>) -> fmt::Result {
        f.write_str(match self {
            AmountError::Room => "the buffer is too short for the text of the amount",
            AmountError::Text => "the text is not an amount",
            AmountError::NotWhole => "the amount is not a whole number of bytes",
            AmountError::TooLarge => "the amount is above 64 GiB",
        })
    }
}

impl Error for AmountError {}
