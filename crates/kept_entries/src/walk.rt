// What a commit reads of the kept entries before its puts are stored.
ghost use Rattle.std.specs.Prelude.{[], take};
ghost use Rattle.surveys.specs.Survey.{Surveyed};
ghost use Rattle.kept_entries.specs.KeptEntries.{entries_in, puts_in, Tallied};

use super::stores::{mark_kept_replaced, new_kept_rows};
use kept::{KeptEntry, KeptPut};
use rules::VolumeNo;
use surveys::Findings;

#[derive(Clone, Copy)]
pub(crate) struct KeptSums {
    pub within: bool,
    pub kept: u64,
    pub used: usize,
}

// One walk over the entries, in place. No path is read: the sums are those of any journal.
fn kept_tally(entries: [KeptEntry; 64], n: VolumeNo, marks: [bool; 64]) -> KeptSums
    ensures { Tallied n marks (entries_in [] entries) result.within result.kept result.used }
{
    let mut within = true;
    let mut kept: u64 = 0;
    let mut used: usize = 0;
    for i in 0..64 {
        if entries[i].volume.0 != 0 {
            used += 1;
            if 68719476736 < entries[i].size {
                within = false;
            } else {
                if entries[i].volume.0 == n.0 {
                    if !marks[i] {
                        kept += entries[i].size;
                    }
                }
            }
        }
    }
    KeptSums { within, kept, used }
}

// Without puts nothing is replaced, and the entries are not searched for it.
pub fn kept_survey(
    journal: &[u8],
    entries: [KeptEntry; 64],
    n: VolumeNo,
    puts: [KeptPut; 8],
    count: usize,
) -> Findings
    ensures { Surveyed n (take count (puts_in journal.now puts)) (entries_in journal.now entries) result.marks result.within result.kept result.rows }
{
    if count == 0 {
        let none = [false; 64];
        let all = kept_tally(entries, n, none);
        return Findings {
            marks: none,
            within: all.within,
            kept: all.kept,
            rows: all.used,
        };
    }
    let marks = mark_kept_replaced(journal, entries, n, puts, count);
    let left = kept_tally(entries, n, marks);
    let new = new_kept_rows(journal, entries, n, puts, count, marks);
    Findings {
        marks,
        within: left.within,
        kept: left.kept,
        rows: left.used + new,
    }
}
