// A new token takes the next number and the lowest free row, where there is one.
ghost use Rattle.std.specs.Prelude.{◌≡◌, cond, ℕ};
ghost use Rattle.lists.specs.Lists.{first_at, find, hit, miss};
ghost use Rattle.rules.specs.Numbers.{refusal_number};
ghost use Rattle.rules.specs.declared.Tables.{Tables};
ghost use Rattle.rules.specs.declared.Token.{Token};
ghost use Rattle.rules.specs.Tables.{free_token};
ghost use Rattle.rules.specs.TokenCalls.{new_token};
ghost use Rattle.tokens.specs.Parts.{stored_at, stored_in, not_stored, HasScope, is_found, place_of};

use super::{NewToken, TokensOutcome};
use rules::{Refusal, Scope, Token, TokenNo, VolumeNo};

// A refusal stores no token.
pub(crate) fn not_stored(n: Refusal) -> NewToken
    ensures { result ≡ not_stored (refusal_number n) }
{
    let answer = rules::refusal(n);
    let token = rules::fresh_token();
    NewToken {
        answer,
        stored: false,
        token,
    }
}

// The token of the next number. `last` is the last number given, and `free` says whether there is a free row.
pub(crate) fn new_token(
    last: u32,
    free: bool,
    volume: VolumeNo,
    parent: TokenNo,
    scope: Scope,
) -> NewToken
    ensures { ((t : Tables) (i : ℕ) (old : Token) → t.last_token ≡ last → find free_token t.tokens ≡ cond free (hit i old) miss → stored_at t i result ≡ new_token t volume parent scope) × HasScope scope result }
{
    if 65535 <= last {
        return not_stored(Refusal::Spent);
    }
    if !free {
        return not_stored(Refusal::Room);
    }
    let token = Token {
        no: TokenNo(last + 1),
        volume,
        parent,
        scope,
        used: 0,
    };
    let answer = rules::success((last + 1) as u64);
    NewToken {
        answer,
        stored: true,
        token,
    }
}

// Whether a search found a row.
pub fn is_found(f: Option<usize>) -> bool
    ensures { result ≡ is_found f }
{
    let Some(_) = f else {
        return false;
    };
    true
}

// The index of the row that a search found: 0 where there is none.
pub fn place_of(f: Option<usize>) -> usize
    ensures { result ≡ place_of f }
{
    let Some(i) = f else {
        return 0;
    };
    i
}

// The token table with the new token, where one is stored, and its number is the last one given. `f` is the first free row.
pub(crate) fn store(rows: [Token; 32], last: u32, f: Option<usize>, o: NewToken) -> TokensOutcome
    requires { f ≡ first_at free_token 0 rows }
    ensures { result ≡ stored_in rows last (place_of f) o }
{
    let answer = o.answer;
    if !o.stored {
        return TokensOutcome {
            answer,
            tokens: rows,
            last,
        };
    }
    let k = o.token;
    let i = place_of(f);
    let mut tokens = rows;
    tokens[i] = k;
    TokensOutcome {
        answer,
        tokens,
        last: k.no.0,
    }
}
