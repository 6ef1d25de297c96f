// The four units: their names and their sizes.
ghost use Rattle.std.specs.Prelude.{◌≡◌, ◌∷◌};
ghost use Rattle.amount.specs.Amount.{name_of, size_of, space, unit_after, unit_named};

// The units of a typed amount.
#[derive(Clone, Copy, Debug, PartialEq, Eq)]
pub enum ByteUnit {
    B,
    KiB,
    MiB,
    GiB,
}

impl ByteUnit {
    // The bytes in one of the unit.
    pub(crate) fn size(self) -> u64
        ensures { result ≡ size_of self }
    {
        match self {
            ByteUnit::B => 1,
            ByteUnit::KiB => 1_024,
            ByteUnit::MiB => 1_048_576,
            ByteUnit::GiB => 1_073_741_824,
        }
    }

    // What stands after a number: a space and the unit's name.
    pub(crate) fn ending(self) -> &'static [u8]
        ensures { result.now ≡ space ∷ name_of self }
    {
        match self {
            ByteUnit::B => b" B",
            ByteUnit::KiB => b" KiB",
            ByteUnit::MiB => b" MiB",
            ByteUnit::GiB => b" GiB",
        }
    }

    // The unit that has this name.
    #[tactic(auto, using(crate::specs::Grammar::no_name, crate::specs::Grammar::no_letter), unfolding(crate::specs::Amount::unit_named, lists::specs::Bytes::same_bytes))]
    fn named(name: &[u8]) -> Option<ByteUnit>
        ensures { result ≡ unit_named name.now }
    {
        match name {
            b"B" => Some(ByteUnit::B),
            b"KiB" => Some(ByteUnit::KiB),
            b"MiB" => Some(ByteUnit::MiB),
            b"GiB" => Some(ByteUnit::GiB),
            _ => None,
        }
    }

    // The unit that stands after a number: one space, then its name.
    #[tactic(auto, unfolding(crate::specs::Amount::unit_after))]
    pub(crate) fn after(rest: &[u8]) -> Option<ByteUnit>
        ensures { result ≡ unit_after rest.now }
    {
        match rest {
            [b' ', name @ ..] => ByteUnit::named(name),
            _ => None,
        }
    }
}
