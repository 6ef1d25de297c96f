// What a commit does to the kept entries: which of them its puts replace, how many rows they need, and the table with all of them stored.
ghost use Rattle.std.specs.Prelude.{◌≡◌, cond, map, eqb, take};
ghost use Rattle.lists.specs.Lists.{count_if};
ghost use Rattle.rules.specs.Commit.{is_replaced, is_new_path, store_all};
ghost use Rattle.kept_entries.specs.KeptEntries.{entries_in, puts_in, kept_for};

use super::paths::{has_path, same_paths};
use entries::any_mark;
use kept::{KeptEntry, KeptPut};
use rows::{is_number, put_count};
use rules::{Placement, VolumeNo};

// A mark for each entry: whether one of the first `count` puts replaces it. The puts are searched here and by no function of its own, which
// would copy them for each entry.
pub fn mark_kept_replaced(
    journal: &[u8],
    entries: [KeptEntry; 64],
    n: VolumeNo,
    puts: [KeptPut; 8],
    count: usize,
) -> [bool; 64]
    ensures { result ≡ map (is_replaced n (take count (puts_in journal.now puts))) (entries_in journal.now entries) }
{
    let m = put_count(count);
    let mut marks = [false; 64];
    for i in 0..64 {
        if is_number(n.0, entries[i].volume.0) {
            let at = entries[i].at;
            let len = entries[i].len;
            let mut found = false;
            for k in 0..m {
                if same_paths(journal, puts[k].at, puts[k].len, at, len) {
                    found = true;
                }
            }
            marks[i] = found;
        }
    }
    marks
}

// How many of the first `count` puts have a path that is new to the volume. The marks are those of the entries that the puts replace: a row
// without one has none of their paths and is not compared.
fn count_kept_new(
    journal: &[u8],
    entries: [KeptEntry; 64],
    n: VolumeNo,
    puts: [KeptPut; 8],
    count: usize,
    marks: [bool; 64],
) -> usize
    requires { marks ≡ map (is_replaced n (take count (puts_in journal.now puts))) (entries_in journal.now entries) }
    ensures { result ≡ count_if (is_new_path n (entries_in journal.now entries)) (take count (puts_in journal.now puts)) }
{
    let m = put_count(count);
    let mut new: usize = 0;
    for i in 0..m {
        let at = puts[i].at;
        let len = puts[i].len;
        let mut there = false;
        for k in 0..64 {
            if marks[k] {
                let e = entries[k];
                if has_path(journal, e, n, at, len) {
                    there = true;
                }
            }
        }
        if !there {
            new += 1;
        }
    }
    new
}

// The same. Where no mark is set every put is new: then the entries are not searched for it.
pub(crate) fn new_kept_rows(
    journal: &[u8],
    entries: [KeptEntry; 64],
    n: VolumeNo,
    puts: [KeptPut; 8],
    count: usize,
    marks: [bool; 64],
) -> usize
    requires { marks ≡ map (is_replaced n (take count (puts_in journal.now puts))) (entries_in journal.now entries) }
    ensures { result ≡ count_if (is_new_path n (entries_in journal.now entries)) (take count (puts_in journal.now puts)) }
{
    if !any_mark(&marks) {
        return put_count(count);
    }
    count_kept_new(journal, entries, n, puts, count, marks)
}

// The entry of a put, whose path stands where the put's does.
fn kept_entry_for(n: VolumeNo, p: KeptPut, place: Placement) -> KeptEntry
    ensures { result ≡ kept_for n p place }
{
    let hash = p.hash;
    KeptEntry {
        volume: n,
        at: p.at,
        len: p.len,
        size: p.size,
        hash,
        placement: place,
    }
}

// The row k where it is free, as the number of its volume says, else the free row that was found before.
fn lower_free(volume: u32, k: usize, free: usize) -> usize
    ensures { result ≡ cond (eqb volume 0) k free }
{
    if volume == 0 { k } else { free }
}

// The row that was found, else the free one: 64 stands for none.
fn found_or(row: usize, free: usize) -> usize
    ensures { result ≡ cond (eqb row 64) free row }
{
    if row == 64 { free } else { row }
}

// The entries after the first `count` puts are stored in staging order, each with the placement of its index: in the row of its path,
// else in the lowest free row. A row without a mark has none of their paths and is not compared. The rows are searched here, from the
// last to the first, and by no function of its own, which would copy them for each put.
pub fn store_kept(
    journal: &[u8],
    entries: [KeptEntry; 64],
    n: VolumeNo,
    puts: [KeptPut; 8],
    places: [Placement; 8],
    count: usize,
) -> [KeptEntry; 64]
    ensures { entries_in journal.now result ≡ store_all n (take count (puts_in journal.now puts)) (take count places) (entries_in journal.now entries) }
{
    let mut marks = mark_kept_replaced(journal, entries, n, puts, count);
    let m = put_count(count);
    let mut out = entries;
    for i in 0..m {
        let p = puts[i];
        let place = places[i];
        let mut row: usize = 64;
        let mut free: usize = 64;
        let mut k: usize = 64;
        while 0 < k {
            k -= 1;
            free = lower_free(out[k].volume.0, k, free);
            if marks[k] {
                let e = out[k];
                if has_path(journal, e, n, p.at, p.len) {
                    row = k;
                }
            }
        }
        let to = found_or(row, free);
        if to < 64 {
            out[to] = kept_entry_for(n, p, place);
            marks[to] = true;
        }
    }
    out
}
