// Delete.
ghost use Rattle.std.specs.Prelude.{◌≡◌, ◌&&◌, ◌<◌, get_or};
ghost use Rattle.lists.specs.Lists.{hit};
ghost use Rattle.rules.specs.Numbers.{refusal_number};
ghost use Rattle.rules.specs.Fresh.{fresh_token};
ghost use Rattle.rules.specs.Outcome.{refused, accepted};
ghost use Rattle.rules.specs.Tables.{given, numbered, with_volumes, with_tokens, cleared};
ghost use Rattle.rules.specs.VolumeCalls.{is_token_of, delete_in, delete_rule};
ghost use Rattle.rows.specs.Blank.{blank_volume};
ghost use Rattle.volumes.specs.Parts.{on_delete};

use super::DeleteOutcome;
use super::status::with_status;
use rows::{find_row, is_number, is_open, owned_by};
use rules::{Account, Refusal, Status, Tables, Token, Volume, VolumeNo};

fn refuse(t: Tables, n: Refusal) -> DeleteOutcome
    ensures { on_delete t result ≡ refused t (refusal_number n) }
{
    let answer = rules::refusal(n);
    let volumes = t.volumes;
    let tokens = t.tokens;
    DeleteOutcome {
        answer,
        volumes,
        tokens,
    }
}

// `t` is not read; it is here for the contract, which says what the outcome makes of it.
fn accept(t: Tables, volumes: [Volume; 8], tokens: [Token; 32]) -> DeleteOutcome
    ensures { on_delete t result ≡ accepted 0 (with_tokens (with_volumes t volumes) tokens) }
{
    let answer = rules::success(0);
    DeleteOutcome {
        answer,
        volumes,
        tokens,
    }
}

// Whether a token of this number and volume is volume n's.
fn is_token_of(n: VolumeNo, no: u32, volume: u32) -> bool
    ensures { result ≡ (given no && numbered n.0 volume) }
{
    if no == 0 {
        return false;
    }
    is_number(n.0, volume)
}

// The tokens without those of a volume.
fn drop_tokens(rows: [Token; 32], n: VolumeNo) -> [Token; 32]
    ensures { result ≡ cleared (is_token_of n) fresh_token rows }
{
    let mut next = rows;
    for i in 0..32 {
        if is_token_of(n, rows[i].no.0, rows[i].volume.0) {
            next[i] = rules::fresh_token();
        }
    }
    next
}

// From the volume's row on.
#[tactic(auto, unfolding(rules::specs::VolumeCalls::delete_in))]
fn delete_at(t: Tables, a: Account, i: usize) -> DeleteOutcome
    requires { i < 8 }
    ensures { on_delete t result ≡ delete_in t a (hit i (get_or t.volumes i blank_volume)) }
{
    let mut rows = t.volumes;
    let v = rows[i];
    let status = v.status;
    let no = v.no;
    if !owned_by(&v, a) {
        return refuse(t, Refusal::NotOwner);
    }
    if !is_open(status) {
        return refuse(t, Refusal::State);
    }
    rows[i] = with_status(v, Status::Deleted, v.grace, t.clock);
    let tokens = t.tokens;
    accept(t, rows, drop_tokens(tokens, no))
}

// An account deletes its volume, which drops the volume's tokens for good.
pub fn delete_on(t: Tables, a: Account, n: VolumeNo) -> DeleteOutcome
    ensures { on_delete t result ≡ delete_rule a n t }
{
    let rows = t.volumes;
    let Some(i) = find_row(&rows, n) else {
        return refuse(t, Refusal::NoVolume);
    };
    delete_at(t, a, i)
}
