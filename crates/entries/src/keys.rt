// The numbers of the puts' paths. An entry whose path has none of them is not compared with the puts.
ghost use Rattle.std.specs.Prelude.{◌≡◌, length, take};
ghost use Rattle.lists.specs.Lists.{any_of};
ghost use Rattle.entries.specs.Keys.{is_key, put_keys};

use rows::{path_key, put_count};
use rules::{Put, VolumeNo};

// The number of each of the first `count` puts' paths, and zeros after them.
pub(crate) fn put_keys(n: VolumeNo, puts: [Put; 8], count: usize) -> [u64; 8]
    ensures { result ≡ put_keys n (take count puts) }
{
    let m = put_count(count);
    let mut keys = [0u64; 8];
    for i in 0..m {
        keys[i] = path_key(n.0, puts[i].path);
    }
    keys
}

// Whether the number is one of these. The loop does not return early, so that the compiler may compare several at once.
pub(crate) fn has_key(keys: &[u64; 8], key: u64) -> bool
    requires { length keys.now ≡ 8 }
    ensures { result ≡ any_of (is_key key) keys.now }
{
    let mut found = false;
    for i in 0..8 {
        if keys[i] == key {
            found = true;
        }
    }
    found
}
