// The relays of a placement take its shards.
ghost use Rattle.std.specs.Prelude.{◌≡◌, length, take};
ghost use Rattle.lists.specs.Lists.{any_of};
ghost use Rattle.placing.specs.Room.{is_number, loaded_if, loaded_rows};

use super::room::{any_number, place_numbers};
use rules::{Placement, Relay};

// A relay after it took its shard of so many bytes, if its number is one of the first `len`. None where a number would not fit.
fn load_row(row: Relay, bytes: u64, numbers: &[u32; 24], len: usize) -> Option<Relay>
    requires { length numbers.now ≡ 24 }
    ensures { result ≡ loaded_if (any_of (is_number row.no.0) (take len numbers.now)) bytes row }
{
    if !any_number(numbers, len, row.no.0) {
        return Some(row);
    }
    Some(Relay {
        used: row.used.checked_add(bytes)?,
        held: row.held.checked_add(1)?,
        ..row
    })
}

// The relays after an object with shards of so many bytes is placed. It does not fit where a relay's bytes would pass 2^64 - 1
// or its shards 2^32 - 1.
pub fn load(rows: [Relay; 32], bytes: u64, place: Placement) -> Option<[Relay; 32]>
    ensures { result ≡ loaded_rows bytes place rows }
{
    let numbers = place_numbers(place);
    let mut out = rows;
    for i in 0..32 {
        out[i] = load_row(rows[i], bytes, &numbers, place.len)?;
    }
    Some(out)
}
