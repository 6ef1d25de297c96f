// The placing of a session's puts, one after another.
ghost use Rattle.std.specs.Prelude.{◌≡◌, true, ◌≤◌, take};
ghost use Rattle.lists.specs.Lists.{all_of};
ghost use Rattle.rules.specs.Sound.{shards_fit};
ghost use Rattle.rules.specs.Commit.{place_all};
ghost use Rattle.surveys.specs.RowLimits.{relay_within, put_within};
ghost use Rattle.commits.specs.Stored.{placed_by};

use placing::place_put;
use rules::{Placement, Put, Relay, fresh_placement};

// A placement for each put, and the relay table after them.
#[derive(Clone, Copy)]
pub(crate) struct Places {
    pub places: [Placement; 8],
    pub rows: [Relay; 32],
}

// The first `count` puts, each on the relays as those before it left them; or none, where some put finds too few relays.
pub(crate) fn place_all(
    clock: u64,
    k: u8,
    m: u8,
    puts: [Put; 8],
    count: usize,
    relays: [Relay; 32],
) -> Option<Places>
    requires { (count ≤ 8) × (shards_fit k m ≡ true) × (all_of put_within (take count puts) ≡ true) × (all_of relay_within relays ≡ true) }
    ensures { placed_by count result ≡ place_all clock k m (take count puts) relays }
{
    let none = fresh_placement();
    let mut places = [none; 8];
    let mut rows = relays;
    for i in 0..count {
        let p = puts[i];
        let one = place_put(clock, k, m, p.size, rows);
        if !one.placed {
            return None;
        }
        places[i] = one.place;
        rows = one.rows;
    }
    Some(Places { places, rows })
}
