// Attenuate: a token makes a child of narrower scope.
ghost use Rattle.std.specs.Prelude.{◌≡◌, true, cond, ℕ};
ghost use Rattle.lists.specs.Lists.{find, hit, miss};
ghost use Rattle.text.specs.Text.{is_prefix};
ghost use Rattle.rules.specs.declared.Tables.{Tables};
ghost use Rattle.rules.specs.declared.Token.{Token};
ghost use Rattle.rules.specs.declared.TokenNo.{TokenNo};
ghost use Rattle.rules.specs.Tables.{free_token, token_of};
ghost use Rattle.rules.specs.TokenCalls.{attenuate_rule};
ghost use Rattle.tokens.specs.Parts.{on_tokens, stored_at, HasPrefix};
ghost use Rattle.scopes.specs.Arguments.{scope_arg};
ghost use Rattle.rows.specs.Links.{row_if};
ghost use Rattle.tokens.specs.Rows.{attenuate_deep, attenuate_found};

use super::new_tokens::{is_found, new_token, not_stored, store};
use super::scope::make_scope;
use super::{NewToken, TokensOutcome};
use amount::Cap;
use rows::{depth_of, find_row, free_row};
use rules::{Mode, Refusal, Tables, Token, TokenNo, fresh_token};
use scopes::{narrows, scope_fits};

// From the parent's row on.
fn attenuate_in(
    k: Token,
    deep: usize,
    last: u32,
    free: bool,
    prefix: &[u8],
    mode: Mode,
    cap: Cap,
    from: u64,
    until: u64,
) -> NewToken
    requires { is_prefix prefix.now ≡ true }
    ensures { ((t : Tables) (i : ℕ) (old : Token) → t.last_token ≡ last → find free_token t.tokens ≡ cond free (hit i old) miss → stored_at t i result ≡ attenuate_deep t (scope_arg prefix.now mode cap from until) deep (hit 0 k)) × HasPrefix prefix.now result }
{
    let parent = k.scope;
    if !narrows(prefix, mode, cap, from, until, parent) {
        return not_stored(Refusal::Widens);
    }
    if 8 <= deep {
        return not_stored(Refusal::Deep);
    }
    let volume = k.volume;
    let no = k.no;
    let scope = make_scope(prefix, mode, cap, from, until);
    new_token(last, free, volume, no, scope)
}

// The same as `attenuate_on`, of the parent's row where there is one, its depth, the last token number given, and whether a row of the
// tokens is free.
#[tactic(auto, unfolding(crate::specs::Rows::attenuate_found, rules::specs::Scope::scope_fits))]
pub fn attenuate_row(
    there: bool,
    k: Token,
    deep: usize,
    last: u32,
    free: bool,
    prefix: &[u8],
    mode: Mode,
    cap: Cap,
    from: u64,
    until: u64,
) -> NewToken
    ensures { ((t : Tables) (i : ℕ) (old : Token) → t.last_token ≡ last → find free_token t.tokens ≡ cond free (hit i old) miss → stored_at t i result ≡ attenuate_found t (scope_arg prefix.now mode cap from until) deep (row_if there k)) × HasPrefix prefix.now result }
{
    if !scope_fits(prefix, cap, from, until) {
        return not_stored(Refusal::Bad);
    }
    if !there {
        return not_stored(Refusal::NoToken);
    }
    attenuate_in(k, deep, last, free, prefix, mode, cap, from, until)
}

// In the table of the tokens, from the parent's row on.
fn attenuate_at(
    rows: [Token; 32],
    last: u32,
    there: bool,
    k: Token,
    prefix: &[u8],
    mode: Mode,
    cap: Cap,
    from: u64,
    until: u64,
) -> TokensOutcome
    ensures { (t : Tables) (n : TokenNo) (j : ℕ) → t.tokens ≡ rows → t.last_token ≡ last → token_of n t ≡ cond there (hit j k) miss → on_tokens t result ≡ attenuate_rule n (scope_arg prefix.now mode cap from until) t }
{
    let deep = depth_of(&rows, &k);
    let f = free_row(&rows);
    let free = is_found(f);
    let o = attenuate_row(there, k, deep, last, free, prefix, mode, cap, from, until);
    store(rows, last, f, o)
}

// The token n gets a child whose scope lies within its own.
pub fn attenuate_on(
    t: Tables,
    n: TokenNo,
    prefix: &[u8],
    mode: Mode,
    cap: Cap,
    from: u64,
    until: u64,
) -> TokensOutcome
    ensures { on_tokens t result ≡ attenuate_rule n (scope_arg prefix.now mode cap from until) t }
{
    let rows = t.tokens;
    let last = t.last_token;
    let Some(j) = find_row(&rows, n) else {
        let k = fresh_token();
        return attenuate_at(rows, last, false, k, prefix, mode, cap, from, until);
    };
    let k = rows[j];
    attenuate_at(rows, last, true, k, prefix, mode, cap, from, until)
}
