// Relays that leave the table.
ghost use Rattle.std.specs.Prelude.{◌≡◌, ◌&&◌, ◌-◌, eqb};
ghost use Rattle.rules.specs.Limits.{full_health};
ghost use Rattle.rules.specs.Fresh.{fresh_relay};
ghost use Rattle.rules.specs.Tables.{given, cleared};
ghost use Rattle.rules.specs.Relays.{is_dead};

use rules::Relay;

// Health 0: 100 blocks or more since the last heartbeat.
fn no_health(clock: u64, beat: u64) -> bool
    ensures { result ≡ eqb (full_health - (clock - beat)) 0 }
{
    100 <= clock.saturating_sub(beat)
}

// Whether a row of this number and heartbeat holds a relay at health 0.
fn is_dead(clock: u64, no: u32, beat: u64) -> bool
    ensures { result ≡ (given no && eqb (full_health - (clock - beat)) 0) }
{
    no != 0 && no_health(clock, beat)
}

// The relays without those at health 0.
pub(crate) fn relays_left(clock: u64, rows: [Relay; 32]) -> [Relay; 32]
    ensures { result ≡ cleared (is_dead clock) fresh_relay rows }
{
    let mut left = rows;
    for i in 0..32 {
        if is_dead(clock, rows[i].no.0, rows[i].beat) {
            left[i] = rules::fresh_relay();
        }
    }
    left
}
