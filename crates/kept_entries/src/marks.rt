// Kept entries that go: marked, then cleared; and two numbers of each kept entry.
ghost use Rattle.std.specs.Prelude.{◌≡◌, List, map, ℕ};
ghost use Rattle.rules.specs.Fresh.{fresh_entry};
ghost use Rattle.rules.specs.Tables.{is_entry};
ghost use Rattle.rules.specs.Rent.{size_of};
ghost use Rattle.rents.specs.Within.{entry_volume};
ghost use Rattle.entries.specs.Marks.{cleared_by};
ghost use Rattle.kept_entries.specs.KeptEntries.{entries_in};

use super::paths::is_kept_entry;
use kept::KeptEntry;
use rules::VolumeNo;

// A mark for each entry: whether it is this volume's at this path.
pub fn mark_kept_path(journal: &[u8], rows: [KeptEntry; 64], n: VolumeNo, path: &[u8]) -> [bool; 64]
    ensures { result ≡ map (is_entry n path.now) (entries_in journal.now rows) }
{
    let mut marks = [false; 64];
    for i in 0..64 {
        if rows[i].volume.0 == n.0 {
            let e = rows[i];
            marks[i] = is_kept_entry(journal, e, n, path);
        }
    }
    marks
}

// The entries with each marked row as a fresh one.
pub fn clear_kept_entries(rows: [KeptEntry; 64], marks: [bool; 64]) -> [KeptEntry; 64]
    ensures { (j : List ℕ) → entries_in j result ≡ cleared_by marks fresh_entry (entries_in j rows) }
{
    let fresh = kept::fresh_kept_entry();
    let mut left = rows;
    for i in 0..64 {
        if marks[i] {
            left[i] = fresh;
        }
    }
    left
}

// The number of each entry's volume.
pub fn kept_volumes(rows: [KeptEntry; 64]) -> [u32; 64]
    ensures { (j : List ℕ) → result ≡ map entry_volume (entries_in j rows) }
{
    let mut numbers = [0u32; 64];
    for i in 0..64 {
        numbers[i] = rows[i].volume.0;
    }
    numbers
}

// The size of each entry.
pub fn kept_sizes(rows: [KeptEntry; 64]) -> [u64; 64]
    ensures { (j : List ℕ) → result ≡ map size_of (entries_in j rows) }
{
    let mut sizes = [0u64; 64];
    for i in 0..64 {
        sizes[i] = rows[i].size;
    }
    sizes
}
