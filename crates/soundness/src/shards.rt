// The bytes of each entry's shards.
ghost use Rattle.std.specs.Prelude.{◌≡◌, List, map, length};
ghost use Rattle.rules.specs.declared.Entry.{Entry};
ghost use Rattle.rules.specs.declared.Volume.{Volume};
ghost use Rattle.rules.specs.Relays.{shard_bytes};
ghost use Rattle.sound_rows.specs.Numbers.{volume_number, volume_k};

use rows::{find_number, shard_size};
use rules::Tables;
use sound_rows::{volume_ks, volume_numbers};

// The bytes and the shards that a relay has.
#[derive(Clone, Copy)]
pub(crate) struct Load {
    pub bytes: u64,
    pub shards: u32,
}

// The bytes of a shard of an entry of this volume and size. These are the volumes' numbers, and their K.
fn bytes_in(numbers: &[u64], ks: &[u8], n: u32, size: u64) -> u64
    requires { length ks.now ≡ length numbers.now }
    ensures { (vs : List Volume) (e : Entry) → numbers.now ≡ map volume_number vs → ks.now ≡ map volume_k vs → e.volume.0 ≡ n → e.size ≡ size → result ≡ shard_bytes vs e }
{
    let Some(i) = find_number(numbers, u64::from(n)) else {
        return 0;
    };
    shard_size(size, ks[i])
}

// The bytes of each entry's shards: 0 of a free row.
pub(crate) fn shard_sizes(t: Tables) -> [u64; 64]
    ensures { result ≡ map (shard_bytes t.volumes) t.entries }
{
    let volumes = t.volumes;
    let entries = t.entries;
    let numbers = volume_numbers(volumes);
    let ks = volume_ks(volumes);
    let mut sizes = [0u64; 64];
    for i in 0..64 {
        if entries[i].volume.0 != 0 {
            sizes[i] = bytes_in(&numbers, &ks, entries[i].volume.0, entries[i].size);
        }
    }
    sizes
}
