// Effective size and rent.
ghost use Rattle.std.specs.Prelude.{◌≡◌, true, [], ◌∷◌, ◌≤◌};
ghost use Rattle.rules.specs.Rent.{effective, rent_of};
ghost use Rattle.rules.specs.Sound.{shards_fit};
ghost use Rattle.rents.specs.Within.{raw_limit, most_effective, rent_within};

use rows::shards_fit;

// Raw bytes times K+M over K, rounded up once.
fn effective_size(k: u8, m: u8, raw: u64) -> u64
    requires { (shards_fit k m ≡ true) × (raw ≤ raw_limit) }
    ensures { (result ≡ effective k m (raw ∷ [])) × (result ≤ most_effective) }
{
    (raw * (u64::from(k) + u64::from(m))).div_ceil(u64::from(k))
}

// One epoch's rent of so many effective bytes.
fn coins_for(rate: u16, size: u64) -> u64
    requires { size ≤ most_effective }
    ensures { result ≡ rent_of rate size }
{
    (size * u64::from(rate)).div_ceil(1048576)
}

// One epoch's rent of so many raw bytes in shards of K and M. Where K, M or the raw bytes are past the limits of the desk, none is worked out.
pub fn rent_of(rate: u16, k: u8, m: u8, raw: u64) -> Option<u64>
    ensures { result ≡ rent_within rate k m raw }
{
    if !shards_fit(k, m) {
        return None;
    }
    if 8796093022208 < raw {
        return None;
    }
    Some(coins_for(rate, effective_size(k, m, raw)))
}
