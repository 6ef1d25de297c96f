// Register.
ghost use Rattle.std.specs.Prelude.{◌≡◌};
ghost use Rattle.rules.specs.RelayCalls.{register_rule};
ghost use Rattle.relays.specs.Parts.{on_relays};
ghost use Rattle.relays.specs.Rows.{register_row};

use super::answers::{change_on, keep_row};
use super::{RelayChange, RelaysOutcome};
use rows::free_row;
use rules::{Refusal, Relay, RelayNo, Tables};

// A relay of so many bytes joins, where these are the clock, the relay table, and the last relay number given.
#[tactic(auto, unfolding(crate::specs::Rows::register_row, crate::specs::Rows::register_at))]
pub fn register_row(clock: u64, rows: [Relay; 32], last: u32, capacity: u64) -> RelayChange
    ensures { result ≡ register_row clock rows last capacity }
{
    if 4398046511104 < capacity {
        return keep_row(Refusal::Bad);
    }
    if 65535 <= last {
        return keep_row(Refusal::Spent);
    }
    let Some(i) = free_row(&rows) else {
        return keep_row(Refusal::Room);
    };
    let no = last + 1;
    let row = Relay {
        no: RelayNo(no),
        capacity,
        used: 0,
        held: 0,
        beat: clock,
    };
    let answer = rules::success(no as u64);
    RelayChange {
        answer,
        changed: true,
        at: i,
        row,
        last: no,
    }
}

// A relay of so many bytes joins.
pub fn register_on(t: Tables, capacity: u64) -> RelaysOutcome
    ensures { on_relays t result ≡ register_rule capacity t }
{
    let rows = t.relays;
    let o = register_row(t.clock, rows, t.last_relay, capacity);
    change_on(t, o)
}
