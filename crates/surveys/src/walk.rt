// What a commit reads of the entry table before its puts are stored.
ghost use Rattle.std.specs.Prelude.{◌≡◌, ◌*◌, ◌≤◌, ◌^◌, take};
ghost use Rattle.lists.specs.Lists.{all_of, count_if};
ghost use Rattle.rules.specs.Tables.{used_entry};
ghost use Rattle.surveys.specs.RowLimits.{entry_within};
ghost use Rattle.surveys.specs.Survey.{left_bytes, Surveyed};

use super::Findings;
use entries::{any_mark, count_new, mark_replaced};
use rows::put_count;
use rules::{Entry, Put, VolumeNo};

#[derive(Clone, Copy)]
pub(crate) struct Sums {
    pub within: bool,
    pub kept: u64,
    pub used: usize,
}

// One walk over the entries, in place.
fn tally(entries: [Entry; 64], n: VolumeNo, marks: [bool; 64]) -> Sums
    ensures { (result.within ≡ all_of entry_within entries) × (result.kept ≡ left_bytes n marks entries) × (result.kept ≤ 64 * 2 ^ 36) × (result.used ≡ count_if used_entry entries) × (result.used ≤ 64) }
{
    let mut within = true;
    let mut kept: u64 = 0;
    let mut used: usize = 0;
    for i in 0..64 {
        if entries[i].volume.0 != 0 {
            used += 1;
            if 68719476736 < entries[i].size {
                within = false;
            } else {
                if entries[i].volume.0 == n.0 {
                    if !marks[i] {
                        kept += entries[i].size;
                    }
                }
            }
        }
    }
    Sums { within, kept, used }
}

// Without puts nothing is replaced, and where nothing is replaced every put is new: then the entries are not searched for it.
pub fn survey(entries: [Entry; 64], n: VolumeNo, puts: [Put; 8], count: usize) -> Findings
    ensures { Surveyed n (take count puts) entries result.marks result.within result.kept result.rows }
{
    if count == 0 {
        let none = [false; 64];
        let all = tally(entries, n, none);
        return Findings {
            marks: none,
            within: all.within,
            kept: all.kept,
            rows: all.used,
        };
    }
    let marks = mark_replaced(entries, n, puts, count);
    let left = tally(entries, n, marks);
    if any_mark(&marks) {
        let new = count_new(entries, n, puts, count);
        return Findings {
            marks,
            within: left.within,
            kept: left.kept,
            rows: left.used + new,
        };
    }
    let more = put_count(count);
    Findings {
        marks,
        within: left.within,
        kept: left.kept,
        rows: left.used + more,
    }
}
