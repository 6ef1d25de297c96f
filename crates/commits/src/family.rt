// A token and its ancestors, whose quotas a commit must not pass.
ghost use Rattle.std.specs.Prelude.{◌≡◌, ◌+◌, ◌≤◌, take};
ghost use Rattle.lists.specs.Lists.{any_of};
ghost use Rattle.rules.specs.Scope.{family, passes_cap, passes_quota};

use amount::Cap;
use rows::{find_number, passes, token_numbers};
use rules::Token;

// A token and its ancestors: the first `len`, nearest first.
#[derive(Clone, Copy)]
pub struct Family {
    pub tokens: [Token; 8],
    pub len: usize,
}

// The token and its ancestors, which are followed up to a chain of 8. They are searched in a list of the numbers, so each row is read once.
pub fn family_of(rows: [Token; 32], k: Token) -> Family
    ensures { (take result.len result.tokens ≡ family rows k) × (result.len ≤ 8) }
{
    let numbers = token_numbers(&rows);
    let mut tokens = [k; 8];
    let mut n: usize = 1;
    let mut parent = u64::from(k.parent.0);
    while n < 8 {
        let Some(i) = find_number(&numbers, parent) else {
            return Family { tokens, len: n };
        };
        let x = rows[i];
        tokens[n] = x;
        parent = u64::from(x.parent.0);
        n += 1;
    }
    Family { tokens, len: n }
}

// Whether a sum of bytes passes the cap.
pub(crate) fn passes_cap(cap: Cap, a: u64, b: u64) -> bool
    ensures { result ≡ passes_cap cap (a + b) }
{
    match cap {
        Cap::Unlimited => false,
        Cap::Bytes(limit) => passes(limit, a, b),
    }
}

// Whether so many bytes more pass the token's cap, or 2^60.
fn passes_quota(k: Token, bytes: u64) -> bool
    ensures { result ≡ passes_quota bytes k }
{
    let scope = k.scope;
    let cap = scope.cap;
    if passes_cap(cap, k.used, bytes) {
        return true;
    }
    passes(1152921504606846976, k.used, bytes)
}

// Whether they pass the quota of one of the tokens.
pub(crate) fn passes_quotas(f: Family, bytes: u64) -> bool
    requires { f.len ≤ 8 }
    ensures { result ≡ any_of (passes_quota bytes) (take f.len f.tokens) }
{
    let tokens = f.tokens;
    let n = f.len;
    tokens[..n].iter().any(|k| passes_quota(*k, bytes))
}
