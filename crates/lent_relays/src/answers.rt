// What heartbeat and give-back answer, and which row they change.
ghost use Rattle.std.specs.Prelude.{◌≡◌, ◌<◌, ◌-◌, IfOk, eqb, length};
ghost use Rattle.rules.specs.Limits.{full_health};
ghost use Rattle.lent_relays.specs.Lent.{beat_answer, back_answer};

use super::limits::table_fits;
use rows::find_row;
use rules::{Refusal, Relay, RelayNo};

// Health 0: 100 blocks or more since the last heartbeat.
pub fn no_health(clock: u64, beat: u64) -> bool
    ensures { result ≡ eqb (full_health - (clock - beat)) 0 }
{
    100 <= clock.saturating_sub(beat)
}

// The row whose heartbeat is set.
pub(crate) fn beat_answer(clock: u64, rows: &[Relay], n: RelayNo) -> Result<usize, Refusal>
    ensures answer { result ≡ beat_answer clock n rows.now }
    ensures within { IfOk result (λ i. i < length rows.now) }
{
    if !table_fits(clock, rows) {
        return Err(Refusal::Bad);
    }
    let Some(i) = find_row(rows, n) else {
        return Err(Refusal::NoRelay);
    };
    if no_health(clock, rows[i].beat) {
        return Err(Refusal::NoRelay);
    }
    Ok(i)
}

// The row that room is given back to. No clock is given, so 2^40 stands for it, the last block that a clock may have.
pub(crate) fn back_answer(rows: &[Relay], n: RelayNo) -> Result<usize, Refusal>
    ensures answer { result ≡ back_answer n rows.now }
    ensures within { IfOk result (λ i. i < length rows.now) }
{
    if !table_fits(1099511627776, rows) {
        return Err(Refusal::Bad);
    }
    let Some(i) = find_row(rows, n) else {
        return Err(Refusal::NoRelay);
    };
    Ok(i)
}
