// The table of document 01's calls: each kind's number and its list of fields.
ghost use Rattle.std.specs.Prelude.{◌≡◌, ◌≤◌};
ghost use Rattle.journal.specs.Records.{fields_of, kind_numbered};
ghost use Rattle.journal.specs.Table.{width_of};

use super::{Field as F, Kind, Version};

impl Version {
    // The kind of a number, 01 to 10 in every version.
    #[tactic(auto, using(crate::specs::VersionLaws::kinds_all), unfolding(crate::specs::Records::kind_among))]
    pub fn kind_numbered(self, n: u8) -> Option<Kind>
        ensures { result ≡ kind_numbered self n }
    {
        match n {
            0x01 => Some(Kind::Advance),
            0x02 => Some(Kind::Create),
            0x03 => Some(Kind::Deposit),
            0x04 => Some(Kind::Delete),
            0x05 => Some(Kind::Undelete),
            0x06 => Some(Kind::Grant),
            0x07 => Some(Kind::Attenuate),
            0x08 => Some(Kind::Revoke),
            0x09 => Some(Kind::Open),
            0x0a => Some(Kind::Stage),
            0x0b => Some(Kind::Commit),
            0x0c => Some(Kind::Abandon),
            0x0d => Some(Kind::Remove),
            0x0e => Some(Kind::Look),
            0x0f => Some(Kind::Register),
            0x10 => Some(Kind::Heartbeat),
            _ => None,
        }
    }

    // A kind's fields in order, the same in every version.
    pub fn fields_of(self, kind: Kind) -> &'static [F]
        ensures { result.now ≡ fields_of self kind }
    {
        match kind {
            Kind::Advance => &[F::Amount],
            Kind::Create => &[F::Account, F::Text, F::K, F::M, F::Cap],
            Kind::Deposit => &[F::No, F::Amount],
            Kind::Delete => &[F::Account, F::No],
            Kind::Undelete => &[F::Account, F::No],
            Kind::Grant => &[
                F::Account,
                F::No,
                F::Text,
                F::Mode,
                F::Cap,
                F::From,
                F::Until,
            ],
            Kind::Attenuate => &[F::No, F::Text, F::Mode, F::Cap, F::From, F::Until],
            Kind::Revoke => &[F::Account, F::No],
            Kind::Open => &[F::Slot, F::No],
            Kind::Stage => &[F::Slot, F::Text, F::Amount, F::Hash],
            Kind::Commit => &[F::Slot],
            Kind::Abandon => &[F::Slot],
            Kind::Remove => &[F::Account, F::No, F::Text],
            Kind::Look => &[F::No, F::Text],
            Kind::Register => &[F::Amount],
            Kind::Heartbeat => &[F::No],
        }
    }
}

impl F {
    // How many bytes a field has that is a number, and 0 for the others.
    pub(crate) fn width(self) -> usize
        ensures { (result ≡ width_of self) × (result ≤ 8) }
    {
        match self {
            F::Slot | F::K | F::M => 1,
            F::No => 4,
            F::Amount | F::From | F::Until => 8,
            F::Account | F::Text | F::Hash | F::Mode | F::Cap => 0,
        }
    }
}
