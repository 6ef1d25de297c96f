// The bytes of a commit, and those of its volume after it.
ghost use Rattle.std.specs.Prelude.{◌≡◌, true, [], ◌∷◌, ◌+◌, ◌*◌, ◌≤◌, ◌^◌, ltb, take};
ghost use Rattle.lists.specs.Lists.{all_of};
ghost use Rattle.rules.specs.Rent.{rent_for};
ghost use Rattle.rules.specs.Sound.{shards_fit};
ghost use Rattle.rules.specs.Commit.{staged_bytes};
ghost use Rattle.surveys.specs.RowLimits.{put_within};

use rents::rent_of;
use rules::{Put, Volume};

// The sizes of the first `count` puts.
pub(crate) fn staged_bytes(puts: [Put; 8], count: usize) -> u64
    requires { (count ≤ 8) × (all_of put_within (take count puts) ≡ true) }
    ensures { (result ≡ staged_bytes (take count puts)) × (result ≤ 8 * 2 ^ 36) }
{
    let mut sum: u64 = 0;
    for i in 0..count {
        let p = puts[i];
        sum += p.size;
    }
    sum
}

// Whether the balance is below one epoch's rent of so many raw bytes.
pub(crate) fn below_rent(rate: u16, v: Volume, raw: u64) -> bool
    requires { (shards_fit v.k v.m ≡ true) × (raw ≤ 2 ^ 43) }
    ensures { result ≡ ltb v.balance (rent_for rate v (raw ∷ [])) }
{
    match rent_of(rate, v.k, v.m, raw) {
        Some(rent) => v.balance < rent,
        None => true,
    }
}
