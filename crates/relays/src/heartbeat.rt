// Heartbeat.
ghost use Rattle.std.specs.Prelude.{◌≡◌, ◌<◌, get_or};
ghost use Rattle.lists.specs.Lists.{hit};
ghost use Rattle.rules.specs.RelayCalls.{heartbeat_rule, heartbeat_in};
ghost use Rattle.rows.specs.Blank.{blank_relay};
ghost use Rattle.relays.specs.Parts.{on_relays};
ghost use Rattle.relays.specs.Rows.{heartbeat_to, heartbeat_row};

use super::answers::{accept, keep_row, refuse};
use super::{RelayChange, RelaysOutcome};
use lent_relays::no_health;
use rows::find_row;
use rules::{Refusal, Relay, RelayNo, Tables};

// From the relay's row on.
#[tactic(auto, unfolding(rules::specs::RelayCalls::heartbeat_in))]
fn beat_at(t: Tables, i: usize) -> RelaysOutcome
    requires { i < 32 }
    ensures { on_relays t result ≡ heartbeat_in t (hit i (get_or t.relays i blank_relay)) }
{
    let rows = t.relays;
    let row = rows[i];
    if no_health(t.clock, row.beat) {
        return refuse(t, Refusal::NoRelay);
    }
    let next = lent_relays::beat_at(rows, i, t.clock);
    accept(t, 0, next, t.last_relay)
}

// A relay says that it is there.
pub fn heartbeat_on(t: Tables, n: RelayNo) -> RelaysOutcome
    ensures { on_relays t result ≡ heartbeat_rule n t }
{
    let rows = t.relays;
    let Some(i) = find_row(&rows, n) else {
        return refuse(t, Refusal::NoRelay);
    };
    beat_at(t, i)
}

// The relay's row with its last heartbeat now.
#[tactic(auto, unfolding(crate::specs::Rows::heartbeat_to))]
fn beat_row(clock: u64, last: u32, i: usize, x: Relay) -> RelayChange
    ensures { result ≡ heartbeat_to clock last (hit i x) }
{
    if no_health(clock, x.beat) {
        return keep_row(Refusal::NoRelay);
    }
    let mut row = x;
    row.beat = clock;
    let answer = rules::success(0);
    RelayChange {
        answer,
        changed: true,
        at: i,
        row,
        last,
    }
}

// The same as `heartbeat_on`, of the clock, a relay table, and the last relay number given.
pub fn heartbeat_row(clock: u64, rows: [Relay; 32], last: u32, n: RelayNo) -> RelayChange
    ensures { result ≡ heartbeat_row clock rows last n }
{
    let Some(i) = find_row(&rows, n) else {
        return keep_row(Refusal::NoRelay);
    };
    let x = rows[i];
    beat_row(clock, last, i, x)
}
