// Revoke: the owner of a volume drops a token and all its descendants.
ghost use Rattle.std.specs.Prelude.{◌≡◌, List, map, ℕ, length};
ghost use Rattle.lists.specs.Lists.{hit, bit_set};
ghost use Rattle.rules.specs.Numbers.{refusal_number};
ghost use Rattle.rules.specs.declared.Tables.{Tables};
ghost use Rattle.rules.specs.declared.Token.{Token};
ghost use Rattle.rules.specs.declared.TokenNo.{TokenNo};
ghost use Rattle.rules.specs.Fresh.{fresh_token};
ghost use Rattle.rules.specs.Tables.{token_of, numbered};
ghost use Rattle.rules.specs.Scope.{descends};
ghost use Rattle.rules.specs.TokenCalls.{revoke_in, revoke_rule};
ghost use Rattle.rows.specs.Links.{token_number, token_parent, row_if};
ghost use Rattle.tokens.specs.Descends.{in_chain, descends_in};
ghost use Rattle.tokens.specs.Dropped.{cleared_in, dropped_from, none_dropped};
ghost use Rattle.tokens.specs.Parts.{on_tokens};

use super::answers::refuse;
use super::{Dropped, TokensOutcome};
use rows::{find_number, find_row, in_set, owned_by, token_numbers, token_parents};
use rules::{Account, Refusal, Tables, Token, TokenNo, Volume, fresh_token};

// The number of a row is n, and n is a number.
fn is_wide_number(n: u64, row: u64) -> bool
    ensures { result ≡ numbered n row }
{
    n != 0 && row == n
}

// The token n is the token `no` or one of its ancestors, which are followed up to a chain of 8. `parent` is the number of its
// parent. The lists are of the tokens' numbers and of their parents' numbers.
fn in_chain(numbers: &[u64; 32], parents: &[u64; 32], n: u64, no: u64, parent: u64) -> bool
    ensures { result ≡ in_chain numbers.now parents.now n no parent }
{
    if is_wide_number(n, no) {
        return true;
    }
    let mut next = parent;
    for count in 1..8usize {
        let Some(i) = find_number(numbers, next) else {
            return false;
        };
        if is_wide_number(n, numbers[i]) {
            return true;
        }
        next = parents[i];
    }
    false
}

// The row is in use, and its token is n or a descendant of n.
#[tactic(auto, unfolding(crate::specs::Descends::descends_in))]
fn descends(numbers: &[u64; 32], parents: &[u64; 32], n: u64, no: u64, parent: u64) -> bool
    ensures { result ≡ descends_in numbers.now parents.now n no parent }
{
    if no == 0 {
        return false;
    }
    in_chain(numbers, parents, n, no, parent)
}

// The rows of the token n and of its descendants, one bit for each, the first row's lowest.
fn descendant_rows(numbers: &[u64; 32], parents: &[u64; 32], n: TokenNo) -> u32
    ensures { (ts : List Token) → length ts ≡ 32 → numbers.now ≡ map token_number ts → parents.now ≡ map token_parent ts → result ≡ bit_set (descends ts n) ts }
{
    let mut set: u32 = 0;
    for i in 0..32 {
        if descends(numbers, parents, n.0 as u64, numbers[i], parents[i]) {
            set |= 1 << i;
        }
    }
    set
}

// A refusal drops no token.
fn none_dropped(n: Refusal) -> Dropped
    ensures { result ≡ none_dropped (refusal_number n) }
{
    let answer = rules::refusal(n);
    Dropped { answer, set: 0 }
}

// The same as `revoke_on`, of a table of volumes, the token's row where there is one, and the lists of the tokens' numbers and of their
// parents' numbers.
pub fn revoke_row(
    volumes: [Volume; 8],
    there: bool,
    k: Token,
    numbers: &[u64; 32],
    parents: &[u64; 32],
    a: Account,
) -> Dropped
    ensures { (t : Tables) → length t.tokens ≡ 32 → t.volumes ≡ volumes → numbers.now ≡ map token_number t.tokens → parents.now ≡ map token_parent t.tokens → dropped_from t result ≡ revoke_in t a (row_if there k) }
{
    if !there {
        return none_dropped(Refusal::NoToken);
    }
    let volume = k.volume;
    let Some(j) = find_row(&volumes, volume) else {
        return none_dropped(Refusal::NotOwner);
    };
    let v = volumes[j];
    if !owned_by(&v, a) {
        return none_dropped(Refusal::NotOwner);
    }
    let no = k.no;
    let set = descendant_rows(numbers, parents, no);
    let answer = rules::success(0);
    Dropped { answer, set }
}

// The table with the rows of the set as fresh ones.
pub(crate) fn clear_rows(rows: [Token; 32], set: u32) -> [Token; 32]
    ensures { result ≡ cleared_in set fresh_token rows }
{
    let mut next = rows;
    for i in 0..32 {
        if in_set(set, i) {
            next[i] = fresh_token();
        }
    }
    next
}

// In the tables of the volumes and of the tokens, from the token's row on.
fn revoke_at(
    volumes: [Volume; 8],
    rows: [Token; 32],
    last: u32,
    k: Token,
    a: Account,
) -> TokensOutcome
    ensures { (t : Tables) (n : TokenNo) (i : ℕ) → t.volumes ≡ volumes → t.tokens ≡ rows → t.last_token ≡ last → token_of n t ≡ hit i k → on_tokens t result ≡ revoke_rule a n t }
{
    let numbers = token_numbers(&rows);
    let parents = token_parents(&rows);
    let o = revoke_row(volumes, true, k, &numbers, &parents, a);
    let answer = o.answer;
    let tokens = clear_rows(rows, o.set);
    TokensOutcome {
        answer,
        tokens,
        last,
    }
}

// The token n and its descendants go, where the account owns the volume.
pub fn revoke_on(t: Tables, a: Account, n: TokenNo) -> TokensOutcome
    ensures { on_tokens t result ≡ revoke_rule a n t }
{
    let rows = t.tokens;
    let Some(i) = find_row(&rows, n) else {
        return refuse(t, Refusal::NoToken);
    };
    let k = rows[i];
    let volumes = t.volumes;
    revoke_at(volumes, rows, t.last_token, k, a)
}
