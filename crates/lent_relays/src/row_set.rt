// Room given back to the rows of a set, one bit for each, the first row's lowest: the table is held by value, and each row of the set is changed by
// the thin function.
ghost use Rattle.std.specs.Prelude.{◌≡◌, ◌<◌, ◌/◌, ◌%◌, ◌^◌, eqb};
ghost use Rattle.lent_relays.specs.Lent.{lighter_in};

use super::one_row::give_back_row;
use rules::Relay;

// Whether the row's bit is set.
pub(crate) fn in_set(set: u32, i: usize) -> bool
    requires { i < 32 }
    ensures { result ≡ eqb (set / 2 ^ i % 2) 1 }
{
    (set >> i) % 2 == 1
}

pub fn give_back_set(rows: [Relay; 32], set: u32, bytes: u64) -> [Relay; 32]
    ensures { result ≡ lighter_in set bytes rows }
{
    let mut left = rows;
    for i in 0..32 {
        if in_set(set, i) {
            give_back_row(&mut left, i, bytes);
        }
    }
    left
}
