// Room and held shards of the relays: given back for one object.
ghost use Rattle.std.specs.Prelude.{◌≡◌, [], ◌∷◌, map, min, length, take};
ghost use Rattle.lists.specs.Lists.{any_of, bit_set};
ghost use Rattle.rules.specs.Relays.{lightened};
ghost use Rattle.placing.specs.Room.{relay_number, is_number, has_shard, lightened_by};

use lent_relays::give_back_set;
use rows::shard_bytes;
use rules::{Entry, Placement, Relay, Volume};

// The relays' numbers, place by place.
pub(crate) fn place_numbers(place: Placement) -> [u32; 24]
    ensures { result ≡ map relay_number place.relays }
{
    let mut numbers: [u32; 24] = [0; 24];
    for i in 0..24 {
        numbers[i] = place.relays[i].0;
    }
    numbers
}

// Whether one of the first `len` numbers is n.
pub(crate) fn any_number(numbers: &[u32; 24], len: usize, n: u32) -> bool
    ensures { result ≡ any_of (is_number n) (take len numbers.now) }
{
    numbers.iter().take(len).any(|number| *number == n)
}

// The rows that have a shard of the placement, one bit for each, the first row's lowest.
fn held_set(rows: [Relay; 32], place: Placement) -> u32
    ensures { result ≡ bit_set (has_shard place) rows }
{
    let numbers = place_numbers(place);
    let mut set: u32 = 0;
    for i in 0..32 {
        if any_number(&numbers, place.len, rows[i].no.0) {
            set |= 1 << i;
        }
    }
    set
}

// The relays after one object with shards of so many bytes gave its room and held shards back.
pub fn give_back_one(rows: [Relay; 32], bytes: u64, place: Placement) -> [Relay; 32]
    ensures { result ≡ map (lightened_by bytes place) rows }
{
    give_back_set(rows, held_set(rows, place), bytes)
}

// The relays after one entry gave its room and held shards back. A free row gives none.
pub fn give_back_entry(rows: [Relay; 32], volumes: [Volume; 8], e: Entry) -> [Relay; 32]
    ensures { result ≡ map (lightened volumes (e ∷ [])) rows }
{
    if e.volume.0 == 0 {
        return rows;
    }
    give_back_one(rows, shard_bytes(&volumes, &e), e.placement)
}
