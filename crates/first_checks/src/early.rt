// The first checks of a commit, in the order of its row.
ghost use Rattle.std.specs.Prelude.{◌≡◌};
ghost use Rattle.lists.specs.Lists.{find};
ghost use Rattle.rules.specs.Numbers.{answer_number};
ghost use Rattle.rules.specs.Tables.{is_token};
ghost use Rattle.first_checks.specs.Early.{token_fault, early_token, early_number};

use rows::{find_row, in_window, is_active};
use rules::{Refusal, Session, Token, Volume};

// The checks of a commit's token: its window, then the volume's status and version.
#[tactic(auto, unfolding(crate::specs::Early::token_fault))]
pub fn token_fault(clock: u64, v: Volume, version: u32, k: Token) -> Result<(), Refusal>
    ensures { answer_number result ≡ token_fault clock v version k }
{
    if !in_window(clock, &k.scope) {
        return Err(Refusal::Window);
    }
    if !is_active(v.status) {
        return Err(Refusal::State);
    }
    if v.version != version {
        return Err(Refusal::Conflict);
    }
    if 4294967295 <= v.version {
        return Err(Refusal::Spent);
    }
    Ok(())
}

// The token, then its window and the volume's status and version.
fn early_token(clock: u64, tokens: [Token; 32], s: Session, v: Volume) -> Result<(), Refusal>
    ensures { answer_number result ≡ early_token clock s v (find (is_token s.token) tokens) }
{
    let Some(j) = find_row(&tokens, s.token) else {
        return Err(Refusal::NoToken);
    };
    token_fault(clock, v, s.version, tokens[j])
}

// The first checks of a commit, which read neither the entries nor the relays: the refusal, if they refuse it. A caller that asks
// first need not hand the other tables on for a commit that these refuse.
#[tactic(auto, unfolding(crate::specs::Early::early_number, crate::specs::Early::early_volume))]
pub fn early_refusal(
    clock: u64,
    volumes: [Volume; 8],
    tokens: [Token; 32],
    s: Session,
) -> Result<(), Refusal>
    ensures { answer_number result ≡ early_number clock volumes tokens s }
{
    if s.token.0 == 0 {
        return Err(Refusal::Session);
    }
    let Some(i) = find_row(&volumes, s.volume) else {
        return Err(Refusal::NoVolume);
    };
    early_token(clock, tokens, s, volumes[i])
}
