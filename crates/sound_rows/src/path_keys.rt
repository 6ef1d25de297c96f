// A number for each entry, which entries of the same volume and path share. Where the numbers differ, the paths need not be compared.
ghost use Rattle.std.specs.Prelude.{◌≡◌, map};
ghost use Rattle.sound_rows.specs.PathKeys.{path_key};

use rows::bytes_key;
use rules::Entry;

// The key of each entry: 0 of a free row.
pub(crate) fn path_keys(rows: [Entry; 64]) -> [u64; 64]
    ensures { result ≡ map path_key rows }
{
    let mut keys = [0u64; 64];
    for i in 0..64 {
        let e = rows[i];
        if e.volume.0 != 0 {
            let path = e.path;
            let bytes = path.bytes;
            keys[i] = bytes_key(e.volume.0, bytes, path.len);
        }
    }
    keys
}
