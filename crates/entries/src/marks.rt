// Entries that go: marked, then given back, then cleared.
ghost use Rattle.std.specs.Prelude.{◌≡◌, map};
ghost use Rattle.lists.specs.Lists.{any_of};
ghost use Rattle.rules.specs.Fresh.{fresh_entry};
ghost use Rattle.rules.specs.Tables.{is_entry};
ghost use Rattle.rules.specs.Relays.{lightened};
ghost use Rattle.entries.specs.Marks.{is_set, marked, cleared_by};

use placing::give_back_entry;
use rows::is_entry;
use rules::{Entry, Relay, Volume, VolumeNo};

// A mark for each entry: whether it is this volume's at this path. A row of another volume is not copied.
pub fn mark_path(entries: [Entry; 64], n: VolumeNo, path: &[u8]) -> [bool; 64]
    ensures { result ≡ map (is_entry n path.now) entries }
{
    let mut marks = [false; 64];
    for i in 0..64 {
        if entries[i].volume.0 == n.0 {
            let e = entries[i];
            marks[i] = is_entry(&e, n, path);
        }
    }
    marks
}

// The entries with each marked row as a fresh one.
pub fn clear_marked(entries: [Entry; 64], marks: [bool; 64]) -> [Entry; 64]
    ensures { result ≡ cleared_by marks fresh_entry entries }
{
    let fresh = rules::fresh_entry();
    let mut left = entries;
    for i in 0..64 {
        if marks[i] {
            left[i] = fresh;
        }
    }
    left
}

// Whether a mark is set.
pub fn any_mark(marks: &[bool]) -> bool
    ensures { result ≡ any_of is_set marks.now }
{
    marks.iter().any(|x| *x)
}

// The relays after each marked entry gave its room and held shards back. Where no mark is set they are returned as they came.
pub fn give_back(
    volumes: [Volume; 8],
    entries: [Entry; 64],
    marks: [bool; 64],
    relays: [Relay; 32],
) -> [Relay; 32]
    ensures { result ≡ map (lightened volumes (marked marks entries)) relays }
{
    if !any_mark(&marks) {
        return relays;
    }
    let mut rows = relays;
    for i in 0..64 {
        if marks[i] {
            let e = entries[i];
            let next = give_back_entry(rows, volumes, e);
            rows = next;
        }
    }
    rows
}
