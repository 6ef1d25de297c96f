// Placing one put: its relays are chosen, and they take its shards.
ghost use Rattle.std.specs.Prelude.{◌≡◌};
ghost use Rattle.placing.specs.Put.{not_placed, took_place, placed_put};

use super::PlacedPut;
use super::choose::choose_from;
use super::loading::load;
use super::set::{eligible, too_few};
use rows::shard_size;
use rules::{Placement, Relay, fresh_placement};

#[tactic(auto, unfolding(crate::specs::Put::not_placed))]
fn not_placed(rows: [Relay; 32]) -> PlacedPut
    ensures { result ≡ not_placed rows }
{
    PlacedPut {
        placed: false,
        place: fresh_placement(),
        rows,
    }
}

// The relays of the placement take their shards of so many bytes.
fn take_place(rows: [Relay; 32], bytes: u64, place: Placement) -> PlacedPut
    ensures { result ≡ took_place bytes place rows }
{
    let Some(rows) = load(rows, bytes, place) else {
        return not_placed(rows);
    };
    PlacedPut {
        placed: true,
        place,
        rows,
    }
}

// One put of so many bytes on K+M relays: one pass over the relays for the set of the eligible ones, one for their order, one
// that loads those that are taken.
pub fn place_put(clock: u64, k: u8, m: u8, size: u64, rows: [Relay; 32]) -> PlacedPut
    ensures { result ≡ placed_put clock k m size rows }
{
    let wanted = usize::from(k) + usize::from(m);
    if 24 < wanted {
        return not_placed(rows);
    }
    let bytes = shard_size(size, k);
    let set = eligible(clock, bytes, rows);
    if too_few(set, wanted as u32) {
        return not_placed(rows);
    }
    take_place(rows, bytes, choose_from(set, wanted, rows))
}
