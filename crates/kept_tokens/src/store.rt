// The table with a new token, whose prefix is kept as a place in the journal.
ghost use Rattle.std.specs.Prelude.{◌≡◌};
ghost use Rattle.lists.specs.Lists.{first_at};
ghost use Rattle.tokens.specs.Parts.{place_of};
ghost use Rattle.kept_tokens.specs.KeptTokens.{free_kept};
ghost use Rattle.kept_tokens.specs.Calls.{kept_as, kept_stored};

use super::KeptTokens;
use kept::KeptToken;
use rules::Token;
use tokens::{NewToken, place_of};

// The token as it is kept, where its prefix is the `len` bytes from `at` on.
fn kept_as(k: Token, at: usize, len: usize) -> KeptToken
    ensures { result ≡ kept_as k at len }
{
    let no = k.no;
    let volume = k.volume;
    let parent = k.parent;
    let scope = k.scope;
    let mode = scope.mode;
    let cap = scope.cap;
    KeptToken {
        no,
        volume,
        parent,
        at,
        len,
        mode,
        cap,
        from: scope.from,
        until: scope.until,
        used: k.used,
    }
}

// The new token, where one is stored, goes to the first free row, and its number is the last one given. `f` is what the search for that row said.
pub(crate) fn store_kept(
    rows: [KeptToken; 32],
    last: u32,
    f: Option<usize>,
    at: usize,
    len: usize,
    o: NewToken,
) -> KeptTokens
    requires { f ≡ first_at free_kept 0 rows }
    ensures { result ≡ kept_stored rows last (place_of f) at len o }
{
    let answer = o.answer;
    if !o.stored {
        return KeptTokens {
            answer,
            tokens: rows,
            last,
        };
    }
    let k = o.token;
    let i = place_of(f);
    let mut tokens = rows;
    tokens[i] = kept_as(k, at, len);
    KeptTokens {
        answer,
        tokens,
        last: k.no.0,
    }
}
