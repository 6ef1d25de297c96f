// Delete, where the tokens are kept rows.
ghost use Rattle.std.specs.Prelude.{◌≡◌, List, ℕ, ◌<◌, get_or};
ghost use Rattle.lists.specs.Lists.{hit};
ghost use Rattle.rules.specs.Numbers.{refusal_number};
ghost use Rattle.rules.specs.declared.Tables.{Tables};
ghost use Rattle.rules.specs.VolumeCalls.{delete_in, delete_rule};
ghost use Rattle.rows.specs.Blank.{blank_volume};
ghost use Rattle.kept_tokens.specs.KeptTokens.{tokens_in};
ghost use Rattle.kept_calls.specs.Parts.{on_kept_delete, not_deleted};

use super::KeptDelete;
use kept::KeptToken;
use kept_tokens::drop_kept;
use rows::{find_row, is_open, owned_by};
use rules::{Account, Refusal, Status, Volume, VolumeNo};
use volumes::with_status;

// A refusal leaves both tables as they are.
fn refuse(volumes: [Volume; 8], tokens: [KeptToken; 32], n: Refusal) -> KeptDelete
    ensures { result ≡ not_deleted volumes tokens (refusal_number n) }
{
    let answer = rules::refusal(n);
    KeptDelete {
        answer,
        volumes,
        tokens,
    }
}

// From the volume's row on.
fn delete_at(
    clock: u64,
    volumes: [Volume; 8],
    tokens: [KeptToken; 32],
    a: Account,
    i: usize,
) -> KeptDelete
    requires { i < 8 }
    ensures { (j : List ℕ) (t : Tables) → t.clock ≡ clock → t.volumes ≡ volumes → t.tokens ≡ tokens_in j tokens → on_kept_delete j t result ≡ delete_in t a (hit i (get_or volumes i blank_volume)) }
{
    let v = volumes[i];
    let status = v.status;
    let no = v.no;
    if !owned_by(&v, a) {
        return refuse(volumes, tokens, Refusal::NotOwner);
    }
    if !is_open(status) {
        return refuse(volumes, tokens, Refusal::State);
    }
    let mut rows = volumes;
    rows[i] = with_status(v, Status::Deleted, v.grace, clock);
    let answer = rules::success(0);
    let left = drop_kept(tokens, no);
    KeptDelete {
        answer,
        volumes: rows,
        tokens: left,
    }
}

// An account deletes its volume, which drops the volume's tokens for good.
pub fn delete_kept(
    clock: u64,
    volumes: [Volume; 8],
    tokens: [KeptToken; 32],
    a: Account,
    n: VolumeNo,
) -> KeptDelete
    ensures { (j : List ℕ) (t : Tables) → t.clock ≡ clock → t.volumes ≡ volumes → t.tokens ≡ tokens_in j tokens → on_kept_delete j t result ≡ delete_rule a n t }
{
    let Some(i) = find_row(&volumes, n) else {
        return refuse(volumes, tokens, Refusal::NoVolume);
    };
    delete_at(clock, volumes, tokens, a, i)
}
