// The volume table, row by row and against itself.
ghost use Rattle.std.specs.Prelude.{◌≡◌, drop};
ghost use Rattle.lists.specs.Lists.{all_of, any_of, no_clash};
ghost use Rattle.rules.specs.declared.Tables.{Tables};
ghost use Rattle.rules.specs.Sound.{sound_grace, sound_status, sound_volume, sound_volumes, same_name};

use super::numbers::{numbers_differ, volume_numbers};
use rows::{cap_fits, is_given, owned_by, shards_fit};
use rules::{Status, Tables, Volume};
use text::name::holds_name;

// The grace count that the status has.
fn sound_grace(s: Status, grace: u8) -> bool
    ensures { result ≡ sound_grace s grace }
{
    match s {
        Status::Active => grace == 0,
        Status::Grace => {
            if grace < 1 {
                return false;
            }
            grace <= 2
        }
        Status::Deleted => grace <= 2,
    }
}

// That grace count, and no delete after the clock.
fn sound_status(clock: u64, s: Status, grace: u8, deleted: u64) -> bool
    ensures { result ≡ sound_status clock s grace deleted }
{
    if !sound_grace(s, grace) {
        return false;
    }
    deleted <= clock
}

fn sound_volume(v: Volume, last: u32, clock: u64) -> bool
    ensures { (t : Tables) → t.last_volume ≡ last → t.clock ≡ clock → result ≡ sound_volume t v }
{
    if v.no.0 == 0 {
        return true;
    }
    if !is_given(last, v.no.0) {
        return false;
    }
    if !holds_name(&v.name) {
        return false;
    }
    if !shards_fit(v.k, v.m) {
        return false;
    }
    let cap = v.cap;
    if !cap_fits(cap) {
        return false;
    }
    if 1000000000000000 < v.balance {
        return false;
    }
    let status = v.status;
    sound_status(clock, status, v.grace, v.deleted)
}

fn all_volumes(t: Tables) -> bool
    ensures { result ≡ all_of (sound_volume t) t.volumes }
{
    let rows = t.volumes;
    rows.iter()
        .all(|v| sound_volume(*v, t.last_volume, t.clock))
}

#[tactic(auto, unfolding(rules::specs::Sound::same_name, rules::specs::Tables::owned_by))]
fn same_name(a: Volume, b: Volume) -> bool
    ensures { result ≡ same_name a b }
{
    a.no.0 != 0 && b.no.0 != 0 && owned_by(&a, b.owner) && a.name == b.name
}

// Whether a row from an index on has the same owner and name.
fn name_again(rows: [Volume; 8], a: Volume, start: usize) -> bool
    ensures { result ≡ any_of (same_name a) (drop start rows) }
{
    for i in start..8 {
        let b = rows[i];
        if same_name(a, b) {
            return true;
        }
    }
    false
}

// No owner's name is held twice.
fn names_differ(rows: [Volume; 8]) -> bool
    ensures { result ≡ no_clash same_name rows }
{
    for i in 0..8 {
        let v = rows[i];
        if v.no.0 != 0 {
            if name_again(rows, v, i + 1) {
                return false;
            }
        }
    }
    true
}

#[tactic(auto, unfolding(rules::specs::Sound::sound_volumes))]
pub fn sound_volumes(t: Tables) -> bool
    ensures { result ≡ sound_volumes t }
{
    if !all_volumes(t) {
        return false;
    }
    let rows = t.volumes;
    let numbers = volume_numbers(rows);
    if !numbers_differ(&numbers) {
        return false;
    }
    names_differ(rows)
}
