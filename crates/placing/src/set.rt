// Which relays may take a shard of so many bytes: a 32-bit set, one bit for each row, whose ones are counted.
ghost use Rattle.std.specs.Prelude.{◌≡◌, ◌-◌, leb, ltb};
ghost use Rattle.std.specs.Int.Count.{ones};
ghost use Rattle.rules.specs.Limits.{full_health, eligible_health};
ghost use Rattle.rules.specs.Relays.{is_eligible, eligible_set};

use rules::Relay;

// Health of at least 50: at most 50 blocks since the last heartbeat.
fn has_health(clock: u64, beat: u64) -> bool
    ensures { result ≡ leb eligible_health (full_health - (clock - beat)) }
{
    clock.saturating_sub(beat) <= 50
}

// Whether so many bytes are unused. Where more is used than there is, no byte is.
fn has_room(bytes: u64, capacity: u64, used: u64) -> bool
    ensures { result ≡ leb bytes (capacity - used) }
{
    bytes <= capacity.saturating_sub(used)
}

// Whether the row holds a relay in good health with that much capacity unused.
pub fn is_eligible(clock: u64, bytes: u64, row: Relay) -> bool
    ensures { result ≡ is_eligible clock bytes row }
{
    row.no.0 != 0 && has_health(clock, row.beat) && has_room(bytes, row.capacity, row.used)
}

// The rows that are eligible, one bit for each, the first row's lowest.
pub fn eligible(clock: u64, bytes: u64, rows: [Relay; 32]) -> u32
    ensures { result ≡ eligible_set clock bytes rows }
{
    let mut set: u32 = 0;
    for i in 0..32 {
        if is_eligible(clock, bytes, rows[i]) {
            set |= 1 << i;
        }
    }
    set
}

// Whether the set has fewer ones than relays are wanted.
pub fn too_few(set: u32, wanted: u32) -> bool
    ensures { result ≡ ltb (ones set) wanted }
{
    set.count_ones() < wanted
}
