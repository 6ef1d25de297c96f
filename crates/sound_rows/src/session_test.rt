// The session slots: their numbers were given, and their staged puts. They need not be in the tables.
ghost use Rattle.std.specs.Prelude.{◌≡◌, map, ◌≤◌, take};
ghost use Rattle.lists.specs.Lists.{all_of, no_clash};
ghost use Rattle.rules.specs.declared.Tables.{Tables};
ghost use Rattle.rules.specs.Sound.{sound_put, same_path, sound_session};
ghost use Rattle.sound_rows.specs.PathKeys.{put_key};

use super::placements::least;
use rows::{bytes_key, is_given};
use rules::{Put, Session, Tables};
use text::path::holds_path;

#[tactic(auto, unfolding(rules::specs::Sound::sound_put))]
fn sound_put(p: Put) -> bool
    ensures { result ≡ sound_put p }
{
    if !holds_path(&p.path) {
        return false;
    }
    p.size <= 68719476736
}

// Of the first `count` puts.
fn all_puts(rows: [Put; 8], count: usize) -> bool
    ensures { result ≡ all_of sound_put (take count rows) }
{
    rows.iter().take(count).all(|p| sound_put(*p))
}

#[tactic(auto, unfolding(rules::specs::Sound::same_path))]
fn same_path(a: Put, b: Put) -> bool
    ensures { result ≡ same_path a b }
{
    a.path == b.path
}

// A number for each of the first n puts, which puts of the same path share.
fn put_keys(rows: [Put; 8], n: usize) -> [u64; 8]
    requires { n ≤ 8 }
    ensures { take n result ≡ take n (map put_key rows) }
{
    let mut keys = [0u64; 8];
    for i in 0..n {
        let p = rows[i];
        let path = p.path;
        let bytes = path.bytes;
        keys[i] = bytes_key(1, bytes, path.len);
    }
    keys
}

// No path is staged twice. Only puts of the same key are compared.
fn paths_differ(rows: [Put; 8], count: usize) -> bool
    ensures { result ≡ no_clash same_path (take count rows) }
{
    let n = least(count, 8);
    let keys = put_keys(rows, n);
    for i in 0..n {
        let key = keys[i];
        let mut j = i + 1;
        while j < n {
            if keys[j] == key {
                let a = rows[i];
                let b = rows[j];
                if same_path(a, b) {
                    return false;
                }
            }
            j += 1;
        }
    }
    true
}

fn sound_session(s: Session, last_token: u32, last_volume: u32) -> bool
    ensures { (t : Tables) → t.last_token ≡ last_token → t.last_volume ≡ last_volume → result ≡ sound_session t s }
{
    if s.token.0 == 0 {
        return true;
    }
    if !is_given(last_token, s.token.0) {
        return false;
    }
    if !is_given(last_volume, s.volume.0) {
        return false;
    }
    let count = s.count;
    if 8 < count {
        return false;
    }
    let puts = s.puts;
    if !all_puts(puts, count) {
        return false;
    }
    paths_differ(puts, count)
}

pub fn all_sessions(t: Tables, slots: [Session; 4]) -> bool
    ensures { result ≡ all_of (sound_session t) slots }
{
    slots
        .iter()
        .all(|s| sound_session(*s, t.last_token, t.last_volume))
}
