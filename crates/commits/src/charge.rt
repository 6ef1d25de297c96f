// The bytes of a commit charged to its token and every ancestor.
ghost use Rattle.std.specs.Prelude.{◌≡◌, true, map, ◌+◌, ◌≤◌, ◌^◌, min};
ghost use Rattle.lists.specs.Lists.{all_of, any_of};
ghost use Rattle.rules.specs.Tables.{numbered, with_used};
ghost use Rattle.rules.specs.Scope.{family};
ghost use Rattle.rules.specs.Commit.{charged};
ghost use Rattle.commits.specs.Charge.{numbers_of};
ghost use Rattle.surveys.specs.RowLimits.{token_within};

use super::family::{Family, family_of};
use rows::{is_number, put_count};
use rules::Token;

// Their numbers, and zeros after them.
pub fn numbers_of(f: Family) -> [u32; 8]
    ensures { result ≡ numbers_of f.tokens (min f.len 8) }
{
    let tokens = f.tokens;
    let count = put_count(f.len);
    let mut numbers = [0u32; 8];
    for j in 0..count {
        numbers[j] = tokens[j].no.0;
    }
    numbers
}

// Whether n is one of the numbers.
pub fn is_member(numbers: &[u32], n: u32) -> bool
    ensures { result ≡ any_of (numbered n) numbers.now }
{
    numbers.iter().any(|x| is_number(n, *x))
}

fn charge_row(row: Token, bytes: u64) -> Token
    requires { (row.used ≤ 2 ^ 60) × (bytes ≤ 2 ^ 40) }
    ensures { result ≡ with_used row (row.used + bytes) }
{
    let mut next = row;
    next.used = row.used + bytes;
    next
}

// To the token and every ancestor. A row is copied only where it is charged.
pub(crate) fn charge(rows: [Token; 32], k: Token, bytes: u64) -> [Token; 32]
    requires { (all_of token_within rows ≡ true) × (bytes ≤ 2 ^ 40) }
    ensures { result ≡ map (charged (family rows k) bytes) rows }
{
    let f = family_of(rows, k);
    let numbers = numbers_of(f);
    let mut out = rows;
    for i in 0..32 {
        if rows[i].no.0 != 0 {
            if is_member(&numbers, rows[i].no.0) {
                let row = rows[i];
                out[i] = charge_row(row, bytes);
            }
        }
    }
    out
}
