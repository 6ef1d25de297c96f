// Kept entries that go give their room and held shards back.
ghost use Rattle.std.specs.Prelude.{◌≡◌, List, [], map, ℕ};
ghost use Rattle.rules.specs.Relays.{lightened};
ghost use Rattle.entries.specs.Marks.{marked};
ghost use Rattle.kept.specs.Kept.{entry_in};
ghost use Rattle.kept_entries.specs.KeptEntries.{entries_in};

use entries::any_mark;
use kept::KeptEntry;
use placing::give_back_entry;
use rules::{Entry, Relay, Volume};
use text::Text;

// The entry without its path, as the empty journal has it: what an entry gives back is not by its path.
fn bare_entry(e: KeptEntry) -> Entry
    ensures { result ≡ entry_in [] e }
{
    let volume = e.volume;
    let path = Text::empty();
    let hash = e.hash;
    let placement = e.placement;
    Entry {
        volume,
        path,
        size: e.size,
        hash,
        placement,
    }
}

// The relays after each marked entry gave its room and held shards back. Where no mark is set they are returned as they came.
pub fn give_kept_back(
    volumes: [Volume; 8],
    entries: [KeptEntry; 64],
    marks: [bool; 64],
    relays: [Relay; 32],
) -> [Relay; 32]
    ensures { (j : List ℕ) → result ≡ map (lightened volumes (marked marks (entries_in j entries))) relays }
{
    if !any_mark(&marks) {
        return relays;
    }
    let mut rows = relays;
    for i in 0..64 {
        if marks[i] {
            let k = entries[i];
            let e = bare_entry(k);
            let next = give_back_entry(rows, volumes, e);
            rows = next;
        }
    }
    rows
}
