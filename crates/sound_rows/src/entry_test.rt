// The entry table, row by row and against itself.
ghost use Rattle.std.specs.Prelude.{◌≡◌, map, length};
ghost use Rattle.lists.specs.Lists.{all_of, no_clash, find};
ghost use Rattle.sound_rows.specs.Numbers.{volume_number, volume_width};
ghost use Rattle.sound_rows.specs.PathKeys.{path_key};
ghost use Rattle.rules.specs.declared.Tables.{Tables};
ghost use Rattle.rules.specs.Tables.{is_volume};
ghost use Rattle.rules.specs.Sound.{sound_in, sound_entry, sound_entries, same_entry};

use super::numbers::{any_number, numbers_differ, volume_numbers, volume_widths};
use super::path_keys::path_keys;
use super::placements::sound_placement;
use rows::{find_number, is_number};
use rules::{Entry, Placement, Tables, VolumeNo};
use text::path::holds_path;

// The volume is in the table, and the placement is of its K and M. These are the volumes' numbers, and their K+M.
fn sound_in(numbers: &[u64], widths: &[usize], n: VolumeNo, p: Placement, last: u32) -> bool
    requires { length widths.now ≡ length numbers.now }
    ensures { (t : Tables) → numbers.now ≡ map volume_number t.volumes → widths.now ≡ map volume_width t.volumes → t.last_relay ≡ last → result ≡ sound_in t p (find (is_volume n) t.volumes) }
{
    let Some(i) = find_number(numbers, u64::from(n.0)) else {
        return false;
    };
    sound_placement(widths[i], p, last)
}

#[tactic(auto, unfolding(rules::specs::Sound::sound_entry))]
fn sound_entry(e: Entry, numbers: &[u64], widths: &[usize], last: u32) -> bool
    requires { length widths.now ≡ length numbers.now }
    ensures { (t : Tables) → numbers.now ≡ map volume_number t.volumes → widths.now ≡ map volume_width t.volumes → t.last_relay ≡ last → result ≡ sound_entry t e }
{
    let n = e.volume;
    if n.0 == 0 {
        return true;
    }
    if !holds_path(&e.path) {
        return false;
    }
    if 68719476736 < e.size {
        return false;
    }
    let p = e.placement;
    sound_in(numbers, widths, n, p, last)
}

fn all_entries(t: Tables) -> bool
    ensures { result ≡ all_of (sound_entry t) t.entries }
{
    let rows = t.entries;
    let volumes = t.volumes;
    let numbers = volume_numbers(volumes);
    let widths = volume_widths(volumes);
    rows.iter()
        .all(|e| sound_entry(*e, &numbers, &widths, t.last_relay))
}

#[tactic(auto, unfolding(rules::specs::Sound::same_entry))]
fn same_entry(a: Entry, b: Entry) -> bool
    ensures { result ≡ same_entry a b }
{
    if !is_number(a.volume.0, b.volume.0) {
        return false;
    }
    a.path == b.path
}

// No volume's path is held twice, where these are the entries' keys: only rows of the same key are compared.
fn paths_differ(rows: [Entry; 64], keys: [u64; 64]) -> bool
    requires { keys ≡ map path_key rows }
    ensures { result ≡ no_clash same_entry rows }
{
    for i in 0..64 {
        let key = keys[i];
        if key != 0 {
            let mut j = i + 1;
            while j < 64 {
                if keys[j] == key {
                    let a = rows[i];
                    let b = rows[j];
                    if same_entry(a, b) {
                        return false;
                    }
                }
                j += 1;
            }
        }
    }
    true
}

// Where every key is 0, every row is free, and where no two keys are the same, no volume has a path twice.
#[tactic(auto, unfolding(rules::specs::Sound::sound_entries))]
pub fn sound_entries(t: Tables) -> bool
    ensures { result ≡ sound_entries t }
{
    let rows = t.entries;
    let keys = path_keys(rows);
    if !any_number(&keys) {
        return true;
    }
    if !all_entries(t) {
        return false;
    }
    if numbers_differ(&keys) {
        return true;
    }
    paths_differ(rows, keys)
}
