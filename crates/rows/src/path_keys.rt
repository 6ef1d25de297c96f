// A number for a path, by which most paths that differ are told apart without comparing them.
ghost use Rattle.std.specs.Prelude.{◌≡◌, ◌-◌, take};
ghost use Rattle.text.specs.Text.{text_bytes};
ghost use Rattle.rows.specs.PathKeys.{key_of};

use text::{PATH_LIMIT, Text};

// Where the last 13 of so many bytes start.
fn key_start(count: usize) -> usize
    ensures { result ≡ count - 13 }
{
    count.saturating_sub(13)
}

// A number for the path that the first `len` bytes are, from the volume's number and the path's last 13 bytes, which equal paths
// of one volume share: where the numbers differ, the paths need not be compared.
pub fn bytes_key(n: u32, bytes: [u8; PATH_LIMIT], len: usize) -> u64
    ensures { result ≡ key_of n (take len bytes) }
{
    let count = len.min(PATH_LIMIT);
    let mut key: u64 = 0;
    let mut i = key_start(count);
    while i < count {
        key = (key << 5) ^ (bytes[i] as u64);
        i += 1;
    }
    let both = key ^ ((n as u64) << 40);
    (both << 1) | 1
}

// The same of a path.
pub fn path_key(n: u32, path: Text) -> u64
    ensures { result ≡ key_of n (text_bytes path) }
{
    let bytes = path.bytes;
    bytes_key(n, bytes, path.len)
}
