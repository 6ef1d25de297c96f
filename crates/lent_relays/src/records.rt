// What becomes of one relay's record.
ghost use Rattle.std.specs.Prelude.{◌≡◌};
ghost use Rattle.rules.specs.Tables.{with_beat};
ghost use Rattle.lent_relays.specs.Lent.{lighter};

use rules::Relay;

pub(crate) fn with_beat(r: Relay, clock: u64) -> Relay
    ensures { result ≡ with_beat r clock }
{
    Relay { beat: clock, ..r }
}

// A relay after one shard of so many bytes was given back to it, neither count below 0.
pub(crate) fn given_back(r: Relay, bytes: u64) -> Relay
    ensures { result ≡ lighter r bytes }
{
    Relay {
        used: r.used.saturating_sub(bytes),
        held: r.held.saturating_sub(1),
        ..r
    }
}
