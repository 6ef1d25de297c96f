// Why a call is refused, and the number of each reason.
ghost use Rattle.std.specs.Prelude.{◌≡◌};
ghost use Rattle.rules.specs.Numbers.{refusal_number};

use crate::numbers;
use std::fmt;

#[derive(Clone, Copy, Debug, PartialEq, Eq)]
pub enum Refusal {
    Bad,
    NoVolume,
    NotOwner,
    NoToken,
    Window,
    Mode,
    Prefix,
    State,
    Conflict,
    Quota,
    Size,
    Room,
    Rent,
    NoPlace,
    NoEntry,
    Clock,
    Widens,
    Deep,
    Session,
    TooMuch,
    Spent,
    NameTaken,
    NoRelay,
}

impl Refusal {
    pub fn number(self) -> u32
        ensures { result ≡ refusal_number self }
    {
        match self {
            Refusal::Bad => numbers::BAD,
            Refusal::NoVolume => numbers::NO_VOLUME,
            Refusal::NotOwner => numbers::NOT_OWNER,
            Refusal::NoToken => numbers::NO_TOKEN,
            Refusal::Window => numbers::WINDOW,
            Refusal::Mode => numbers::MODE,
            Refusal::Prefix => numbers::PREFIX,
            Refusal::State => numbers::STATE,
            Refusal::Conflict => numbers::CONFLICT,
            Refusal::Quota => numbers::QUOTA,
            Refusal::Size => numbers::SIZE,
            Refusal::Room => numbers::ROOM,
            Refusal::Rent => numbers::RENT,
            Refusal::NoPlace => numbers::NO_PLACE,
            Refusal::NoEntry => numbers::NO_ENTRY,
            Refusal::Clock => numbers::CLOCK,
            Refusal::Widens => numbers::WIDENS,
            Refusal::Deep => numbers::DEEP,
            Refusal::Session => numbers::SESSION,
            Refusal::TooMuch => numbers::TOO_MUCH,
            Refusal::Spent => numbers::SPENT,
            Refusal::NameTaken => numbers::NAME_TAKEN,
            Refusal::NoRelay => numbers::NO_RELAY,
        }
    }
}

impl fmt::Display for Refusal {
    fn fmt<W: fmt::Write>(&self, f: &mut fmt::Formatter<W>) -> fmt::Result {
        f.write_str(match self {
            Refusal::Bad => "a field breaks a rule, or the desk does",
            Refusal::NoVolume => "no volume has this number",
            Refusal::NotOwner => "the account is not the volume's owner",
            Refusal::NoToken => "no token has this number",
            Refusal::Window => "the clock is outside the token's window",
            Refusal::Mode => "the token's mode does not allow it",
            Refusal::Prefix => "the path is not covered by the prefix",
            Refusal::State => "the volume's status does not allow it",
            Refusal::Conflict => "the volume has changed since the session was opened",
            Refusal::Quota => "the bytes pass the cap of the token or of one above it",
            Refusal::Size => "the bytes pass the volume's cap",
            Refusal::Room => "there is no room",
            Refusal::Rent => "the balance does not cover one epoch's rent",
            Refusal::NoPlace => "too few relays are eligible",
            Refusal::NoEntry => "the volume has no entry at this path",
            Refusal::Clock => "the block is before the clock",
            Refusal::Widens => "the scope is wider than the parent's",
            Refusal::Deep => "the chain of tokens is too deep",
            Refusal::Session => "the slot is busy, or it is idle",
            Refusal::TooMuch => "the coins pass their limit",
            Refusal::Spent => "the number or version has reached its end",
            Refusal::NameTaken => "the owner has a volume of this name",
            Refusal::NoRelay => "no relay has this number",
        })
    }
}
