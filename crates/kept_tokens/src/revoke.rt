// Revoke, in a table of kept tokens.
ghost use Rattle.std.specs.Prelude.{◌≡◌, cond, List, ℕ};
ghost use Rattle.lists.specs.Lists.{hit, miss};
ghost use Rattle.rules.specs.declared.Tables.{Tables};
ghost use Rattle.rules.specs.declared.TokenNo.{TokenNo};
ghost use Rattle.rules.specs.Tables.{token_of};
ghost use Rattle.rules.specs.TokenCalls.{revoke_rule};
ghost use Rattle.kept_tokens.specs.KeptTokens.{tokens_in};
ghost use Rattle.kept_tokens.specs.Calls.{on_kept_tokens};

use super::KeptTokens;
use super::clear::clear_kept;
use super::find::{kept_numbers, kept_parents};
use super::row::row_in;
use kept::KeptToken;
use rules::{Account, Token, TokenNo, Volume};
use tokens::revoke_row;

// From the token's row on.
fn revoke_at(
    volumes: [Volume; 8],
    rows: [KeptToken; 32],
    last: u32,
    there: bool,
    k: Token,
    a: Account,
) -> KeptTokens
    ensures { (j : List ℕ) (t : Tables) (n : TokenNo) (i : ℕ) → t.volumes ≡ volumes → t.tokens ≡ tokens_in j rows → t.last_token ≡ last → token_of n t ≡ cond there (hit i k) miss → on_kept_tokens j t result ≡ revoke_rule a n t }
{
    let numbers = kept_numbers(rows);
    let parents = kept_parents(rows);
    let o = revoke_row(volumes, there, k, &numbers, &parents, a);
    let answer = o.answer;
    let tokens = clear_kept(rows, o.set);
    KeptTokens {
        answer,
        tokens,
        last,
    }
}

// The token n and its descendants go, where the account owns the volume.
pub fn revoke_kept(
    journal: &[u8],
    volumes: [Volume; 8],
    rows: [KeptToken; 32],
    last: u32,
    a: Account,
    n: TokenNo,
) -> KeptTokens
    ensures { (t : Tables) → t.volumes ≡ volumes → t.tokens ≡ tokens_in journal.now rows → t.last_token ≡ last → on_kept_tokens journal.now t result ≡ revoke_rule a n t }
{
    let x = row_in(journal, rows, n);
    let k = x.row;
    revoke_at(volumes, rows, last, x.there, k, a)
}
