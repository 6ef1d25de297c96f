// Remove: an owner takes an object out of a volume.
ghost use Rattle.std.specs.Prelude.{◌≡◌, ◌<◌};
ghost use Rattle.rules.specs.Numbers.{refusal_number};
ghost use Rattle.rules.specs.declared.Tables.{Tables};
ghost use Rattle.rules.specs.Limits.{last_version};
ghost use Rattle.rules.specs.VolumeCalls.{remove_rule};
ghost use Rattle.kept_entries.specs.KeptEntries.{entries_in};
ghost use Rattle.kept_removes.specs.Parts.{on_kept_remove, kept_refused, Leaves, out_rule, entry_rule, in_rule};

use super::KeptRemove;
use kept::KeptEntry;
use kept_entries::{clear_kept_entries, find_kept_entry, give_kept_back, mark_kept_path};
use removes::with_version;
use rows::{find_row, is_open, owned_by};
use rules::{Account, Refusal, Relay, Volume, VolumeNo};
use text::path::is_path;

// A refusal: the tables are as they came.
fn refuse(
    volumes: [Volume; 8],
    entries: [KeptEntry; 64],
    relays: [Relay; 32],
    n: Refusal,
) -> KeptRemove
    ensures { result ≡ kept_refused volumes entries relays (refusal_number n) }
{
    let answer = rules::refusal(n);
    KeptRemove {
        answer,
        volumes,
        entries,
        relays,
    }
}

// The entry goes and gives its room back, and the volume has a new version.
fn take_out(
    journal: &[u8],
    volumes: [Volume; 8],
    entries: [KeptEntry; 64],
    relays: [Relay; 32],
    i: usize,
    v: Volume,
    path: &[u8],
) -> KeptRemove
    requires { (i < 8) × (v.version < last_version) }
    ensures { Leaves journal.now volumes entries relays result (out_rule path.now i v) }
{
    let n = v.no;
    let marks = mark_kept_path(journal, entries, n, path);
    let left = clear_kept_entries(entries, marks);
    let rows = give_kept_back(volumes, entries, marks, relays);
    let version = v.version + 1;
    let mut next = volumes;
    next[i] = with_version(v, version);
    let answer = rules::success(version as u64);
    KeptRemove {
        answer,
        volumes: next,
        entries: left,
        relays: rows,
    }
}

// From the volume's row on, where its owner may remove: the entry, then the version.
fn remove_entry(
    journal: &[u8],
    volumes: [Volume; 8],
    entries: [KeptEntry; 64],
    relays: [Relay; 32],
    i: usize,
    v: Volume,
    path: &[u8],
) -> KeptRemove
    requires { i < 8 }
    ensures { Leaves journal.now volumes entries relays result (entry_rule path.now i v) }
{
    let n = v.no;
    let Some(_) = find_kept_entry(journal, &entries, n, path) else {
        return refuse(volumes, entries, relays, Refusal::NoEntry);
    };
    if 4294967295 <= v.version {
        return refuse(volumes, entries, relays, Refusal::Spent);
    }
    take_out(journal, volumes, entries, relays, i, v, path)
}

// From the volume's row on.
fn remove_in(
    journal: &[u8],
    volumes: [Volume; 8],
    entries: [KeptEntry; 64],
    relays: [Relay; 32],
    i: usize,
    v: Volume,
    a: Account,
    path: &[u8],
) -> KeptRemove
    requires { i < 8 }
    ensures { Leaves journal.now volumes entries relays result (in_rule a path.now i v) }
{
    if !owned_by(&v, a) {
        return refuse(volumes, entries, relays, Refusal::NotOwner);
    }
    let status = v.status;
    if !is_open(status) {
        return refuse(volumes, entries, relays, Refusal::State);
    }
    remove_entry(journal, volumes, entries, relays, i, v, path)
}

// From the path on.
fn remove_rows(
    journal: &[u8],
    volumes: [Volume; 8],
    entries: [KeptEntry; 64],
    relays: [Relay; 32],
    a: Account,
    n: VolumeNo,
    path: &[u8],
) -> KeptRemove
    ensures { Leaves journal.now volumes entries relays result (remove_rule a n path.now) }
{
    if !is_path(path) {
        return refuse(volumes, entries, relays, Refusal::Bad);
    }
    let Some(i) = find_row(&volumes, n) else {
        return refuse(volumes, entries, relays, Refusal::NoVolume);
    };
    let v = volumes[i];
    remove_in(journal, volumes, entries, relays, i, v, a, path)
}

// The object at the path goes out of the volume n, where the account owns it.
pub fn remove_kept(
    journal: &[u8],
    volumes: [Volume; 8],
    entries: [KeptEntry; 64],
    relays: [Relay; 32],
    a: Account,
    n: VolumeNo,
    path: &[u8],
) -> KeptRemove
    ensures { (t : Tables) → t.volumes ≡ volumes → t.entries ≡ entries_in journal.now entries → t.relays ≡ relays → on_kept_remove journal.now t result ≡ remove_rule a n path.now t }
{
    remove_rows(journal, volumes, entries, relays, a, n, path)
}
