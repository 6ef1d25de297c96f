// The clock and the ends of epochs.
ghost use Rattle.std.specs.Prelude.{◌≡◌};
ghost use Rattle.rules.specs.Rent.{epoch_ends};
ghost use Rattle.rules.specs.Advance.{bad_block};

// How many epoch ends lie after the old block and up to the new one.
pub(crate) fn epoch_ends(old: u64, new: u64) -> u64
    ensures { result ≡ epoch_ends old new }
{
    (new / 3600).saturating_sub(old / 3600)
}

// Below the clock, above 2^40, or over two epoch ends or more.
pub(crate) fn bad_block(old: u64, new: u64) -> bool
    ensures { result ≡ bad_block old new }
{
    new < old || 1099511627776 < new || 2 <= epoch_ends(old, new)
}
