// Heartbeat and give-back on a lent relay table. Each answers for every slice: 1 for other than 32 rows or a table that breaks a limit,
// then 26, both with the slice as it was; else the one record is changed.
ghost use Rattle.std.specs.Prelude.{◌≡◌};
ghost use Rattle.lent_relays.specs.Lent.{beat_result, beat_rows, back_result, back_rows};

use super::answers::{back_answer, beat_answer};
use super::one_row::{beat_row, give_back_row};
use rules::{Refusal, Relay, RelayNo};

// A relay says that it is there: 26 where it is unknown or at health 0.
pub fn heartbeat(clock: u64, relays: &mut [Relay], relay: RelayNo) -> Result<(), Refusal>
    ensures answer { result ≡ beat_result clock relay relays.old }
    ensures rows { relays.new ≡ beat_rows clock relay relays.old }
{
    let i = beat_answer(clock, relays, relay)?;
    beat_row(relays, i, clock);
    Ok(())
}

// A shard of so many bytes is given back to a relay: 26 where it is unknown.
pub fn give_back(bytes: u64, relays: &mut [Relay], relay: RelayNo) -> Result<(), Refusal>
    ensures answer { result ≡ back_result relay relays.old }
    ensures rows { relays.new ≡ back_rows bytes relay relays.old }
{
    let i = back_answer(relays, relay)?;
    give_back_row(relays, i, bytes);
    Ok(())
}
