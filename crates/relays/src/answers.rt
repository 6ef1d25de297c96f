// The answers of register and heartbeat: a refusal, which leaves all as it came, and success.
ghost use Rattle.std.specs.Prelude.{◌≡◌, ◌<◌};
ghost use Rattle.rules.specs.Numbers.{refusal_number};
ghost use Rattle.rules.specs.Outcome.{refused, accepted};
ghost use Rattle.rules.specs.Tables.{with_relays, with_last_relay};
ghost use Rattle.relays.specs.Parts.{on_relays};
ghost use Rattle.relays.specs.Rows.{on_row, kept_row};

use super::{RelayChange, RelaysOutcome};
use rules::{Refusal, Relay, Tables};

pub(crate) fn refuse(t: Tables, n: Refusal) -> RelaysOutcome
    ensures { on_relays t result ≡ refused t (refusal_number n) }
{
    let answer = rules::refusal(n);
    let relays = t.relays;
    RelaysOutcome {
        answer,
        relays,
        last: t.last_relay,
    }
}

// `t` is not read; it is here for the contract, which says what the outcome makes of it.
pub(crate) fn accept(t: Tables, v: u64, relays: [Relay; 32], last: u32) -> RelaysOutcome
    ensures { on_relays t result ≡ accepted v (with_last_relay (with_relays t relays) last) }
{
    let answer = rules::success(v);
    RelaysOutcome {
        answer,
        relays,
        last,
    }
}

// A refusal changes no row.
pub(crate) fn keep_row(n: Refusal) -> RelayChange
    ensures { result ≡ kept_row (refusal_number n) }
{
    let answer = rules::refusal(n);
    let row = rules::fresh_relay();
    RelayChange {
        answer,
        changed: false,
        at: 0,
        row,
        last: 0,
    }
}

// The relay table with the row that is changed, where one is.
pub(crate) fn change_on(t: Tables, o: RelayChange) -> RelaysOutcome
    requires { o.at < 32 }
    ensures { on_relays t result ≡ on_row t o }
{
    let answer = o.answer;
    let mut relays = t.relays;
    if !o.changed {
        return RelaysOutcome {
            answer,
            relays,
            last: t.last_relay,
        };
    }
    let i = o.at;
    let row = o.row;
    relays[i] = row;
    RelaysOutcome {
        answer,
        relays,
        last: o.last,
    }
}
