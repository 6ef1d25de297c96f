// What a commit does to the entry table: which entries its puts replace, how many rows they need, and the table with all of them stored.
ghost use Rattle.std.specs.Prelude.{◌≡◌, cond, map, eqb, take};
ghost use Rattle.lists.specs.Lists.{count_if};
ghost use Rattle.rules.specs.Commit.{is_replaced, is_new_path, entry_for, store_all};

use super::keys::{has_key, put_keys};
use super::paths::{is_staged, text_len, write_anew};
use rows::{is_entry, is_number, path_key, put_count};
use rules::{Entry, Placement, Put, VolumeNo};

// Whether one of the first `count` puts replaces the entry.
#[tactic(auto, unfolding(rules::specs::Commit::is_replaced))]
fn is_replaced(e: Entry, n: VolumeNo, puts: [Put; 8], count: usize) -> bool
    ensures { result ≡ is_replaced n (take count puts) e }
{
    is_number(n.0, e.volume.0) && is_staged(puts, count, e.path)
}

// A mark for each entry: whether one of the first `count` puts replaces it. A row of another volume is not copied, and the puts are
// searched only for a path whose number one of theirs has.
pub fn mark_replaced(entries: [Entry; 64], n: VolumeNo, puts: [Put; 8], count: usize) -> [bool; 64]
    ensures { result ≡ map (is_replaced n (take count puts)) entries }
{
    let keys = put_keys(n, puts, count);
    let mut marks = [false; 64];
    for i in 0..64 {
        if entries[i].volume.0 == n.0 {
            let e = entries[i];
            let path = e.path;
            let key = path_key(n.0, path);
            if has_key(&keys, key) {
                marks[i] = is_replaced(e, n, puts, count);
            }
        }
    }
    marks
}

// How many of the first `count` puts have a path that is new to the volume. A row without a mark has none of their paths and is not
// compared. The entries are searched here and by no function of its own, which would copy them for each put.
pub fn count_new(entries: [Entry; 64], n: VolumeNo, puts: [Put; 8], count: usize) -> usize
    ensures { result ≡ count_if (is_new_path n entries) (take count puts) }
{
    let marks = mark_replaced(entries, n, puts, count);
    let m = put_count(count);
    let mut new: usize = 0;
    for i in 0..m {
        let p = puts[i];
        let path = p.path;
        let k = text_len(path);
        let b = path.bytes;
        let mut there = false;
        for j in 0..64 {
            if marks[j] {
                let e = entries[j];
                if is_entry(&e, n, &b[..k]) {
                    there = true;
                }
            }
        }
        if !there {
            new += 1;
        }
    }
    new
}

// The entry of a put.
fn entry_for(n: VolumeNo, p: Put, place: Placement) -> Entry
    ensures { result ≡ entry_for n p place }
{
    let hash = p.hash;
    Entry {
        volume: n,
        path: write_anew(p.path),
        size: p.size,
        hash,
        placement: place,
    }
}

// The row j where it is free, as the number of its volume says, else the free row that was found before.
fn lower_free(volume: u32, j: usize, free: usize) -> usize
    ensures { result ≡ cond (eqb volume 0) j free }
{
    if volume == 0 { j } else { free }
}

// The row that was found, else the free one: 64 stands for none.
fn found_or(row: usize, free: usize) -> usize
    ensures { result ≡ cond (eqb row 64) free row }
{
    if row == 64 { free } else { row }
}

// The entries after the first `count` puts are stored in staging order, each with the placement of its index: in the row of its path,
// else in the lowest free row. A row without a mark has none of their paths and is not compared. The rows are searched here, from the
// last to the first, and by no function of its own, which would copy them for each put.
pub fn store_all(
    entries: [Entry; 64],
    n: VolumeNo,
    puts: [Put; 8],
    places: [Placement; 8],
    count: usize,
) -> [Entry; 64]
    ensures { result ≡ store_all n (take count puts) (take count places) entries }
{
    let mut marks = mark_replaced(entries, n, puts, count);
    let m = put_count(count);
    let mut out = entries;
    for i in 0..m {
        let p = puts[i];
        let place = places[i];
        let path = p.path;
        let k = text_len(path);
        let b = path.bytes;
        let mut row: usize = 64;
        let mut free: usize = 64;
        for j in (0..64).rev() {
            free = lower_free(out[j].volume.0, j, free);
            if marks[j] {
                let e = out[j];
                if is_entry(&e, n, &b[..k]) {
                    row = j;
                }
            }
        }
        let to = found_or(row, free);
        if to < 64 {
            out[to] = entry_for(n, p, place);
            marks[to] = true;
        }
    }
    out
}
