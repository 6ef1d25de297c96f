// The relay table, row by row and against itself, with the counts that the placements give.
ghost use Rattle.std.specs.Prelude.{◌≡◌, true, map};
ghost use Rattle.lists.specs.Lists.{any_of, no_clash, sum_of};
ghost use Rattle.rules.specs.Tables.{given, numbered};
ghost use Rattle.sound_rows.specs.Numbers.{relay_number};
ghost use Rattle.rules.specs.Relays.{shard_bytes, bytes_on, shards_on};
ghost use Rattle.rules.specs.Sound.{sound_volumes, sound_entries, sound_relay, sound_relays};

use super::held::relay_sets;
use super::shards::{Load, shard_sizes};
use rows::{in_set, is_given};
use rules::{Relay, Tables};
use sound_rows::{any_number, numbers_differ, relay_numbers};

// A row, where the entries have this load on the relay.
#[tactic(auto, unfolding(rules::specs::Sound::sound_relay))]
fn sound_relay(t: Tables, x: Relay, load: Load) -> bool
    requires { (load.bytes ≡ sum_of (bytes_on t.volumes x.no) t.entries) × (load.shards ≡ sum_of (shards_on x.no) t.entries) }
    ensures { result ≡ sound_relay t x }
{
    if x.no.0 == 0 {
        return true;
    }
    if !is_given(t.last_relay, x.no.0) {
        return false;
    }
    if 4398046511104 < x.capacity {
        return false;
    }
    if x.capacity < x.used {
        return false;
    }
    if t.clock < x.beat {
        return false;
    }
    if x.used != load.bytes {
        return false;
    }
    x.held == load.shards
}

// No number of a relay is held twice.
fn relays_differ(rows: [Relay; 32]) -> bool
    ensures { result ≡ no_clash numbered (map relay_number rows) }
{
    let numbers = relay_numbers(rows);
    numbers_differ(&numbers)
}

// Of tables whose shards have these sizes. A relay's load is summed here and by no function of its own, which would copy the sets
// for each relay.
fn relays_hold(t: Tables, sizes: [u64; 64]) -> bool
    requires { (sizes ≡ map (shard_bytes t.volumes) t.entries) × (sound_volumes t ≡ true) × (sound_entries t ≡ true) }
    ensures { result ≡ sound_relays t }
{
    let rows = t.relays;
    if !relays_differ(rows) {
        return false;
    }
    let entries = t.entries;
    let sets = relay_sets(rows, entries);
    for i in 0..32 {
        let x = rows[i];
        let n = x.no;
        if n.0 != 0 {
            let mut bytes: u64 = 0;
            let mut shards: u32 = 0;
            for j in 0..64 {
                if in_set(sets[j], i) {
                    bytes += sizes[j];
                    shards += 1;
                }
            }
            if !sound_relay(t, x, Load { bytes, shards }) {
                return false;
            }
        }
    }
    true
}

// Whether some row holds a relay.
pub(crate) fn any_relays(rows: [Relay; 32]) -> bool
    ensures { result ≡ any_of given (map relay_number rows) }
{
    let numbers = relay_numbers(rows);
    any_number(&numbers)
}

pub(crate) fn sound_relays(t: Tables) -> bool
    requires { (sound_volumes t ≡ true) × (sound_entries t ≡ true) }
    ensures { result ≡ sound_relays t }
{
    let sizes = shard_sizes(t);
    relays_hold(t, sizes)
}
