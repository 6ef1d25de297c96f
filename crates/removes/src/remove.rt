// Remove: an owner takes an object out of a volume.
ghost use Rattle.std.specs.Prelude.{◌≡◌, ◌+◌, ◌<◌};
ghost use Rattle.lists.specs.Lists.{hit};
ghost use Rattle.rules.specs.Numbers.{refusal_number};
ghost use Rattle.rules.specs.Limits.{last_version};
ghost use Rattle.rules.specs.Tables.{with_volumes, with_entries, with_relays, with_version};
ghost use Rattle.rules.specs.Outcome.{refused, accepted};
ghost use Rattle.rules.specs.VolumeCalls.{removed, remove_entry, remove_in, remove_rule};
ghost use Rattle.removes.specs.Parts.{on_remove};

use super::RemoveOutcome;
use entries::{clear_marked, give_back, mark_path};
use rows::{find_entry, find_row, is_open, owned_by};
use rules::{Account, Entry, Refusal, Relay, Tables, Volume, VolumeNo};
use text::path::is_path;

fn refuse(t: Tables, n: Refusal) -> RemoveOutcome
    ensures { on_remove t result ≡ refused t (refusal_number n) }
{
    let volumes = t.volumes;
    let entries = t.entries;
    let relays = t.relays;
    RemoveOutcome {
        answer: rules::refusal(n),
        volumes,
        entries,
        relays,
    }
}

fn accept(
    t: Tables,
    v: u64,
    volumes: [Volume; 8],
    entries: [Entry; 64],
    relays: [Relay; 32],
) -> RemoveOutcome
    ensures { on_remove t result ≡ accepted v (with_volumes (with_relays (with_entries t entries) relays) volumes) }
{
    RemoveOutcome {
        answer: rules::success(v),
        volumes,
        entries,
        relays,
    }
}

// The volume with this version.
pub fn with_version(v: Volume, version: u32) -> Volume
    ensures { result ≡ with_version v version }
{
    Volume { version, ..v }
}

// The entry goes and gives its room back, and the volume has a new version.
fn take_out(t: Tables, i: usize, v: Volume, path: &[u8]) -> RemoveOutcome
    requires { (i < 8) × (v.version < last_version) }
    ensures { on_remove t result ≡ accepted (v.version + 1) (removed t path.now i v) }
{
    let marks = mark_path(t.entries, v.no, path);
    let left = clear_marked(t.entries, marks);
    let rows = give_back(t.volumes, t.entries, marks, t.relays);
    let version = v.version + 1;
    let mut next = t.volumes;
    next[i] = with_version(v, version);
    accept(t, version as u64, next, left, rows)
}

// From the volume's row on, where its owner may remove: the entry, then the version.
fn remove_entry(t: Tables, i: usize, v: Volume, path: &[u8]) -> RemoveOutcome
    requires { i < 8 }
    ensures { on_remove t result ≡ remove_entry t path.now i v (Rattle.rules.specs.Tables.entry_of v.no path.now t) }
{
    let Some(_) = find_entry(&t.entries, v.no, path) else {
        return refuse(t, Refusal::NoEntry);
    };
    if 4294967295 <= v.version {
        return refuse(t, Refusal::Spent);
    }
    take_out(t, i, v, path)
}

// From the volume's row on.
#[tactic(auto, unfolding(rules::specs::VolumeCalls::remove_in))]
fn remove_in(t: Tables, i: usize, v: Volume, a: Account, path: &[u8]) -> RemoveOutcome
    requires { i < 8 }
    ensures { on_remove t result ≡ remove_in t a path.now (hit i v) }
{
    if !owned_by(&v, a) {
        return refuse(t, Refusal::NotOwner);
    }
    if !is_open(v.status) {
        return refuse(t, Refusal::State);
    }
    remove_entry(t, i, v, path)
}

pub fn remove_on(t: Tables, a: Account, n: VolumeNo, path: &[u8]) -> RemoveOutcome
    ensures { on_remove t result ≡ remove_rule a n path.now t }
{
    if !is_path(path) {
        return refuse(t, Refusal::Bad);
    }
    let rows = t.volumes;
    let Some(i) = find_row(&rows, n) else {
        return refuse(t, Refusal::NoVolume);
    };
    let v = rows[i];
    remove_in(t, i, v, a, path)
}
