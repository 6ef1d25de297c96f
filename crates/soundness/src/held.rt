// The relays that hold the shards of each entry, one bit for each row of the relay table.
ghost use Rattle.std.specs.Prelude.{◌≡◌, true, map};
ghost use Rattle.lists.specs.Lists.{no_clash, bit_set};
ghost use Rattle.rules.specs.Tables.{numbered};
ghost use Rattle.sound_rows.specs.Numbers.{relay_number};
ghost use Rattle.soundness.specs.Held.{on_place, held_set, ByRemainder, RowTable};

use rows::find_number;
use rules::{Entry, Relay};
use sound_rows::{place_numbers, relay_numbers};

// For each remainder by 256 the last row whose number has it, or 0. The number of a free row is 0.
fn rows_by(rows: [Relay; 32]) -> [usize; 256]
    ensures { ByRemainder (map relay_number rows) result }
{
    let mut table = [0usize; 256];
    for i in 0..32 {
        let r = (rows[i].no.0 % 256) as usize;
        table[r] = i;
    }
    table
}

// The set of the row whose relay has this number, or no row: by the number's remainder, and by a search where the row found has another number of that
// remainder.
fn place_set(numbers: &[u64], table: &[usize], n: u32) -> u32
    requires { RowTable numbers.now table.now }
    ensures { result ≡ bit_set (numbered n) numbers.now }
{
    if n == 0 {
        return 0;
    }
    let r = (n % 256) as usize;
    let k = table[r];
    let x = numbers[k];
    if x == u64::from(n) {
        return 1 << k;
    }
    if x % 256 != u64::from(n) % 256 {
        return 0;
    }
    let Some(i) = find_number(numbers, u64::from(n)) else {
        return 0;
    };
    1 << i
}

// The rows of the relays of these numbers.
fn places_set(numbers: &[u64], table: &[usize], places: &[u32]) -> u32
    requires { RowTable numbers.now table.now }
    ensures { result ≡ bit_set (on_place places.now) numbers.now }
{
    let mut set: u32 = 0;
    for p in 0..places.len() {
        let one = place_set(numbers, table, places[p]);
        set |= one;
    }
    set
}

// The rows of the relays that hold the entry's shards. A free row has none.
fn held_sets(rows: [Entry; 64], numbers: &[u64], table: &[usize]) -> [u32; 64]
    requires { RowTable numbers.now table.now }
    ensures { result ≡ map (held_set numbers.now) rows }
{
    let mut sets = [0u32; 64];
    for i in 0..64 {
        let e = rows[i];
        if e.volume.0 != 0 {
            let p = e.placement;
            let places = place_numbers(p);
            sets[i] = places_set(numbers, table, &places);
        }
    }
    sets
}

// For each entry the rows of the relays that hold its shards.
pub(crate) fn relay_sets(rows: [Relay; 32], entries: [Entry; 64]) -> [u32; 64]
    requires { no_clash numbered (map relay_number rows) ≡ true }
    ensures { result ≡ map (held_set (map relay_number rows)) entries }
{
    let numbers = relay_numbers(rows);
    let table = rows_by(rows);
    held_sets(entries, &numbers, &table)
}
