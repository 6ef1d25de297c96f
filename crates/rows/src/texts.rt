// Rows by their texts and owners: entries and staged puts by path, volumes by owner and name.
ghost use Rattle.std.specs.Prelude.{◌≡◌, ◌<◌, IfSome, length, min, take};
ghost use Rattle.lists.specs.Lists.{first_at, any_of};
ghost use Rattle.rules.specs.Tables.{is_entry, is_put, owned_by};
ghost use Rattle.rules.specs.VolumeCalls.{has_name};

use super::find::is_number;
use rules::{Account, Entry, Put, Volume, VolumeNo};

// Whether the entry is this volume's at this path.
#[tactic(auto, unfolding(rules::specs::Tables::is_entry))]
pub fn is_entry(e: &Entry, n: VolumeNo, path: &[u8]) -> bool
    ensures { result ≡ is_entry n path.now e.now }
{
    is_number(n.0, e.volume.0) && e.path.as_bytes() == path
}

pub fn find_entry(rows: &[Entry], n: VolumeNo, path: &[u8]) -> Option<usize>
    ensures place { result ≡ first_at (is_entry n path.now) 0 rows.now }
    ensures within { IfSome result (λ i. i < length rows.now) }
{
    rows.iter().position(|e| is_entry(e, n, path))
}

// How many of a session's 8 put places are in use.
pub fn put_count(count: usize) -> usize
    ensures { result ≡ min count 8 }
{
    count.min(8)
}

#[tactic(auto, unfolding(rules::specs::Tables::is_put))]
fn is_put(p: &Put, path: &[u8]) -> bool
    ensures { result ≡ is_put path.now p.now }
{
    p.path.as_bytes() == path
}

// Among the first `count` puts.
pub fn find_put(rows: &[Put], count: usize, path: &[u8]) -> Option<usize>
    ensures place { result ≡ first_at (is_put path.now) 0 (take count rows.now) }
    ensures within { IfSome result (λ i. i < length rows.now) }
{
    rows.iter().take(count).position(|p| is_put(p, path))
}

#[tactic(auto, unfolding(rules::specs::Tables::owned_by))]
pub fn owned_by(v: &Volume, a: Account) -> bool
    ensures { result ≡ owned_by a v.now }
{
    v.owner.0 == a.0
}

// Whether the volume is this owner's and has this name.
#[tactic(auto, unfolding(rules::specs::VolumeCalls::has_name))]
pub fn has_name(v: &Volume, a: Account, name: &[u8]) -> bool
    ensures { result ≡ has_name a name.now v.now }
{
    v.no.0 != 0 && owned_by(v, a) && v.name.as_bytes() == name
}

pub fn name_taken(rows: &[Volume], a: Account, name: &[u8]) -> bool
    ensures { result ≡ any_of (has_name a name.now) rows.now }
{
    rows.iter().any(|v| has_name(v, a, name))
}
