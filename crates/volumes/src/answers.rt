// The answers of create, deposit and undelete: a refusal, which leaves all as it came, and success.
ghost use Rattle.std.specs.Prelude.{◌≡◌};
ghost use Rattle.rules.specs.Numbers.{refusal_number};
ghost use Rattle.rules.specs.Outcome.{refused, accepted};
ghost use Rattle.rules.specs.Tables.{with_volumes, with_last_volume, with_deposits};
ghost use Rattle.volumes.specs.Parts.{on_volumes};

use super::VolumesOutcome;
use rules::{Refusal, Tables, Volume};

pub(crate) fn refuse(t: Tables, n: Refusal) -> VolumesOutcome
    ensures { on_volumes t result ≡ refused t (refusal_number n) }
{
    let answer = rules::refusal(n);
    let volumes = t.volumes;
    VolumesOutcome {
        answer,
        volumes,
        last: t.last_volume,
        deposits: t.deposits,
    }
}

// `t` is not read; it is here for the contract, which says what the outcome makes of it.
pub(crate) fn accept(
    t: Tables,
    v: u64,
    volumes: [Volume; 8],
    last: u32,
    deposits: u64,
) -> VolumesOutcome
    ensures { on_volumes t result ≡ accepted v (with_deposits (with_last_volume (with_volumes t volumes) last) deposits) }
{
    let answer = rules::success(v);
    VolumesOutcome {
        answer,
        volumes,
        last,
        deposits,
    }
}
