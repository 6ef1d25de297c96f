// Paths that are kept, of an entry or of a put.
ghost use Rattle.std.specs.Prelude.{◌≡◌};
ghost use Rattle.lists.specs.Bytes.{same_bytes};
ghost use Rattle.lists.specs.Lists.{first_at};
ghost use Rattle.rules.specs.Tables.{is_entry};
ghost use Rattle.kept.specs.Kept.{entry_in};
ghost use Rattle.kept_entries.specs.KeptEntries.{path_in, entries_in};

use kept::{KeptEntry, bytes_in};
use lists::same_bytes;
use rows::is_number;
use rules::VolumeNo;
use text::PATH_LIMIT;

// The bytes of the path there, no more than a text holds.
pub(crate) fn path_in(journal: &[u8], at: usize, len: usize) -> &[u8]
    ensures { result.now ≡ path_in journal.now at len }
{
    bytes_in(journal, at, len.min(PATH_LIMIT))
}

// Whether the entry is this volume's at this path.
pub fn is_kept_entry(journal: &[u8], e: KeptEntry, n: VolumeNo, path: &[u8]) -> bool
    ensures { result ≡ is_entry n path.now (entry_in journal.now e) }
{
    if !is_number(n.0, e.volume.0) {
        return false;
    }
    let p = path_in(journal, e.at, e.len);
    same_bytes(p, path)
}

// The index of the volume's entry at the path. The table is lent: by value it would be copied for each look.
pub fn find_kept_entry(
    journal: &[u8],
    rows: &[KeptEntry; 64],
    n: VolumeNo,
    path: &[u8],
) -> Option<usize>
    ensures { result ≡ first_at (is_entry n path.now) 0 (entries_in journal.now rows.now) }
{
    for i in 0..64 {
        if rows[i].volume.0 == n.0 {
            let e = rows[i];
            if is_kept_entry(journal, e, n, path) {
                return Some(i);
            }
        }
    }
    None
}

// Whether the paths at two places are the same: their lengths are compared first.
pub(crate) fn same_paths(journal: &[u8], a: usize, a_len: usize, b: usize, b_len: usize) -> bool
    ensures { result ≡ same_bytes (path_in journal.now a a_len) (path_in journal.now b b_len) }
{
    let x = path_in(journal, a, a_len);
    let y = path_in(journal, b, b_len);
    same_bytes(x, y)
}

// Whether the entry is this volume's at the path there.
pub(crate) fn has_path(journal: &[u8], e: KeptEntry, n: VolumeNo, at: usize, len: usize) -> bool
    ensures { result ≡ is_entry n (path_in journal.now at len) (entry_in journal.now e) }
{
    let path = path_in(journal, at, len);
    is_kept_entry(journal, e, n, path)
}
