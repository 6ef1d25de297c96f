// Create.
ghost use Rattle.std.specs.Prelude.{◌≡◌, ◌&&◌, ◌<◌, take};
ghost use Rattle.lists.specs.Lists.{hit, find};
ghost use Rattle.text.specs.Text.{name_limit, is_name};
ghost use Rattle.rules.specs.Scope.{cap_fits};
ghost use Rattle.rules.specs.Sound.{shards_fit};
ghost use Rattle.rules.specs.Tables.{free_volume};
ghost use Rattle.rules.specs.VolumeCalls.{new_volume, create_in, create_rule};
ghost use Rattle.volumes.specs.Parts.{on_volumes};

use super::VolumesOutcome;
use super::answers::{accept, refuse};
use amount::Cap;
use rows::{cap_fits, free_row, name_taken, shards_fit};
use rules::{Account, Refusal, Status, Tables, Volume, VolumeNo};
use text::name::{Name, is_name};

fn make_volume(n: u32, a: Account, name: &[u8], k: u8, m: u8, cap: Cap) -> Volume
    ensures { result ≡ new_volume n a (take name_limit name.now) k m cap }
{
    Volume {
        no: VolumeNo(n),
        owner: a,
        name: Name::truncated(name),
        k,
        m,
        cap,
        status: Status::Active,
        balance: 0,
        version: 0,
        grace: 0,
        deleted: 0,
    }
}

// The new volume takes the row, and its number is the last one given.
#[tactic(auto, unfolding(rules::specs::VolumeCalls::create_in))]
fn store_volume(t: Tables, i: usize, v: Volume) -> VolumesOutcome
    requires { i < 8 }
    ensures { on_volumes t result ≡ create_in t v (hit i v) }
{
    let mut rows = t.volumes;
    rows[i] = v;
    accept(t, v.no.0 as u64, rows, v.no.0, t.deposits)
}

// The new volume takes the lowest free row.
fn place_volume(t: Tables, v: Volume) -> VolumesOutcome
    ensures { on_volumes t result ≡ create_in t v (find free_volume t.volumes) }
{
    let rows = t.volumes;
    let Some(i) = free_row(&rows) else {
        return refuse(t, Refusal::Room);
    };
    store_volume(t, i, v)
}

fn create_fits(name: &[u8], k: u8, m: u8, cap: Cap) -> bool
    ensures { result ≡ (is_name name.now && shards_fit k m && cap_fits cap) }
{
    if !is_name(name) {
        return false;
    }
    if !shards_fit(k, m) {
        return false;
    }
    cap_fits(cap)
}

// An account makes a volume of k data shards and m parity shards for each object.
#[tactic(auto, unfolding(rules::specs::VolumeCalls::create_rule))]
pub fn create_on(t: Tables, a: Account, name: &[u8], k: u8, m: u8, cap: Cap) -> VolumesOutcome
    ensures { on_volumes t result ≡ create_rule a name.now k m cap t }
{
    if !create_fits(name, k, m, cap) {
        return refuse(t, Refusal::Bad);
    }
    let rows = t.volumes;
    if name_taken(&rows, a, name) {
        return refuse(t, Refusal::NameTaken);
    }
    let last = t.last_volume;
    if 65535 <= last {
        return refuse(t, Refusal::Spent);
    }
    let v = make_volume(last + 1, a, name, k, m, cap);
    place_volume(t, v)
}
