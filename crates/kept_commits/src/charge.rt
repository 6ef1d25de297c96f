// The bytes of a commit charged to its token and every ancestor, in a table of kept tokens.
ghost use Rattle.std.specs.Prelude.{◌≡◌, true, map, ◌+◌, ◌<◌, ◌≤◌, ◌^◌, get_or, take};
ghost use Rattle.lists.specs.Lists.{all_of};
ghost use Rattle.rules.specs.Scope.{family};
ghost use Rattle.rules.specs.Commit.{charged, staged_bytes};
ghost use Rattle.rows.specs.Blank.{blank_token};
ghost use Rattle.kept_entries.specs.KeptEntries.{puts_in};
ghost use Rattle.kept_tokens.specs.KeptTokens.{tokens_in};
ghost use Rattle.kept_commits.specs.KeptLimits.{within_kept, used_kept, put_kept};

use super::family::kept_family;
use super::within::kept_bytes;
use commits::{is_member, numbers_of};
use kept::{KeptPut, KeptToken, token_in};
use rules::Token;

fn charge_kept_row(row: KeptToken, bytes: u64) -> KeptToken
    requires { (row.used ≤ 2 ^ 60) × (bytes ≤ 2 ^ 40) }
    ensures { result ≡ used_kept row (row.used + bytes) }
{
    let mut next = row;
    next.used = row.used + bytes;
    next
}

// To the token and every ancestor.
pub(crate) fn charge_kept(
    journal: &[u8],
    rows: [KeptToken; 32],
    k: Token,
    bytes: u64,
) -> [KeptToken; 32]
    requires { (all_of within_kept rows ≡ true) × (bytes ≤ 2 ^ 40) }
    ensures { tokens_in journal.now result ≡ map (charged (family (tokens_in journal.now rows) k) bytes) (tokens_in journal.now rows) }
{
    let f = kept_family(journal, rows, k);
    let numbers = numbers_of(f);
    let mut out = rows;
    for i in 0..32 {
        if rows[i].no.0 != 0 {
            if is_member(&numbers, rows[i].no.0) {
                let row = rows[i];
                out[i] = charge_kept_row(row, bytes);
            }
        }
    }
    out
}

// The sizes of the first `count` puts charged to the token at a row and its ancestors.
pub(crate) fn charge_staged(
    journal: &[u8],
    rows: [KeptToken; 32],
    at: usize,
    puts: [KeptPut; 8],
    count: usize,
) -> [KeptToken; 32]
    requires { (at < 32) × (count ≤ 8) × (all_of put_kept (take count puts) ≡ true) × (all_of within_kept rows ≡ true) }
    ensures { tokens_in journal.now result ≡ map (charged (family (tokens_in journal.now rows) (get_or (tokens_in journal.now rows) at blank_token)) (staged_bytes (take count (puts_in journal.now puts)))) (tokens_in journal.now rows) }
{
    let bytes = kept_bytes(puts, count);
    let row = rows[at];
    let k = token_in(journal, row);
    charge_kept(journal, rows, k, bytes)
}
