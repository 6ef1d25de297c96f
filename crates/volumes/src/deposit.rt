// Deposit.
ghost use Rattle.std.specs.Prelude.{◌≡◌, ◌<◌, get_or};
ghost use Rattle.lists.specs.Lists.{hit};
ghost use Rattle.rules.specs.VolumeCalls.{too_much, deposit_in, deposit_rule};
ghost use Rattle.rows.specs.Blank.{blank_volume};
ghost use Rattle.volumes.specs.Parts.{on_volumes};

use super::VolumesOutcome;
use super::answers::{accept, refuse};
use rows::{find_row, is_open, passes};
use rules::{Refusal, Tables, Volume, VolumeNo};

// The balance would be above 10^15, or all deposits ever above 10^18.
fn too_much(t: Tables, v: Volume, coins: u64) -> bool
    ensures { result ≡ too_much t v coins }
{
    if passes(1000000000000000, v.balance, coins) {
        return true;
    }
    passes(1000000000000000000, t.deposits, coins)
}

// From the volume's row on.
#[tactic(auto, unfolding(rules::specs::VolumeCalls::deposit_in))]
fn deposit_at(t: Tables, i: usize, coins: u64) -> VolumesOutcome
    requires { i < 8 }
    ensures { on_volumes t result ≡ deposit_in t coins (hit i (get_or t.volumes i blank_volume)) }
{
    let mut rows = t.volumes;
    let mut v = rows[i];
    let status = v.status;
    if !is_open(status) {
        return refuse(t, Refusal::State);
    }
    if too_much(t, v, coins) {
        return refuse(t, Refusal::TooMuch);
    }
    v.balance = v.balance + coins;
    rows[i] = v;
    let deposits = t.deposits + coins;
    accept(t, 0, rows, t.last_volume, deposits)
}

// Coins are added to a volume's balance.
pub fn deposit_on(t: Tables, n: VolumeNo, coins: u64) -> VolumesOutcome
    ensures { on_volumes t result ≡ deposit_rule n coins t }
{
    let rows = t.volumes;
    let Some(i) = find_row(&rows, n) else {
        return refuse(t, Refusal::NoVolume);
    };
    deposit_at(t, i, coins)
}
