// Undelete.
ghost use Rattle.std.specs.Prelude.{◌≡◌, ◌<◌, get_or};
ghost use Rattle.lists.specs.Lists.{hit};
ghost use Rattle.rules.specs.VolumeCalls.{undelete_in, undelete_rule};
ghost use Rattle.rows.specs.Blank.{blank_volume};
ghost use Rattle.volumes.specs.Parts.{on_volumes};

use super::VolumesOutcome;
use super::answers::{accept, refuse};
use super::status::with_status;
use rows::{find_row, is_open, owned_by};
use rules::{Account, Refusal, Status, Tables, VolumeNo};

// From the volume's row on.
#[tactic(auto, unfolding(rules::specs::VolumeCalls::undelete_in))]
fn undelete_at(t: Tables, a: Account, i: usize) -> VolumesOutcome
    requires { i < 8 }
    ensures { on_volumes t result ≡ undelete_in t a (hit i (get_or t.volumes i blank_volume)) }
{
    let mut rows = t.volumes;
    let v = rows[i];
    let status = v.status;
    if !owned_by(&v, a) {
        return refuse(t, Refusal::NotOwner);
    }
    if is_open(status) {
        return refuse(t, Refusal::State);
    }
    rows[i] = with_status(v, Status::Active, 0, 0);
    accept(t, 0, rows, t.last_volume, t.deposits)
}

// An account takes back the delete of its volume.
pub fn undelete_on(t: Tables, a: Account, n: VolumeNo) -> VolumesOutcome
    ensures { on_volumes t result ≡ undelete_rule a n t }
{
    let rows = t.volumes;
    let Some(i) = find_row(&rows, n) else {
        return refuse(t, Refusal::NoVolume);
    };
    undelete_at(t, a, i)
}
