// The bytes of a shard.
ghost use Rattle.std.specs.Prelude.{◌≡◌};
ghost use Rattle.rules.specs.Relays.{shard_size, shard_bytes};

use super::find::find_row;
use rules::{Entry, Volume};

// The size over K, rounded up.
pub fn shard_size(size: u64, k: u8) -> u64
    ensures { result ≡ shard_size size k }
{
    if k == 0 {
        return 0;
    }
    size.div_ceil(u64::from(k))
}

// The bytes of each shard of an entry: 0 where its volume is not in the table.
pub fn shard_bytes(volumes: &[Volume], e: &Entry) -> u64
    ensures { result ≡ shard_bytes volumes.now e.now }
{
    let Some(i) = find_row(volumes, e.volume) else {
        return 0;
    };
    shard_size(e.size, volumes[i].k)
}
