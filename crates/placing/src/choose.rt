// The relays that a put takes: the first of the eligible ones in their order, by shard index.
ghost use Rattle.std.specs.Prelude.{◌≡◌, map, ◌≤◌, min, length, take};
ghost use Rattle.rules.specs.Relays.{taken, placement_of};
ghost use Rattle.placing.specs.Order.{key_number, taken_in};

use super::order::rank;
use super::set::eligible;
use rules::{Placement, Relay, RelayNo};

// The numbers of the relays with the first n keys.
fn first_numbers(keys: &[u64; 32], n: usize) -> Placement
    requires { (length keys.now ≡ 32) × (n ≤ 24) }
    ensures { result ≡ placement_of (map key_number (take n keys.now)) }
{
    let mut relays = [RelayNo(0); 24];
    for i in 0..n {
        relays[i] = RelayNo((keys[i] % 4294967296) as u32);
    }
    Placement { relays, len: n }
}

// The first relays of a set, as many as are wanted and there are, and no more than 24.
pub fn choose_from(set: u32, wanted: usize, rows: [Relay; 32]) -> Placement
    ensures { result ≡ placement_of (taken_in set (min wanted 24) rows) }
{
    let order = rank(set, rows);
    first_numbers(&order.keys, wanted.min(24).min(order.len))
}

// The relays that a put with shards of so many bytes takes, as many as are wanted and there are, and no more than 24.
pub fn choose_relays(clock: u64, bytes: u64, wanted: usize, rows: [Relay; 32]) -> Placement
    ensures { result ≡ placement_of (taken clock bytes (min wanted 24) rows) }
{
    choose_from(eligible(clock, bytes, rows), wanted, rows)
}
