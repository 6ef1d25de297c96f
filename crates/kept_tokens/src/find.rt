// Rows by their number, free rows, and the lists of the numbers. None of these reads the journal: each contract says it first of the kept rows, then
// of the tokens that they stand for, whatever the journal.
ghost use Rattle.std.specs.Prelude.{◌≡◌, List, map, ℕ};
ghost use Rattle.lists.specs.Lists.{first_at};
ghost use Rattle.rules.specs.Tables.{is_token, free_token};
ghost use Rattle.rows.specs.Links.{token_number, token_parent};
ghost use Rattle.kept_tokens.specs.KeptTokens.{tokens_in, is_kept, free_kept, kept_number, kept_parent};

use kept::KeptToken;
use rows::is_number;
use rules::TokenNo;

pub fn find_kept(rows: [KeptToken; 32], n: TokenNo) -> Option<usize>
    ensures { (result ≡ first_at (is_kept n) 0 rows) × ((j : List ℕ) → result ≡ first_at (is_token n) 0 (tokens_in j rows)) }
{
    for i in 0..32 {
        if is_number(n.0, rows[i].no.0) {
            return Some(i);
        }
    }
    None
}

pub fn free_kept(rows: [KeptToken; 32]) -> Option<usize>
    ensures { (result ≡ first_at free_kept 0 rows) × ((j : List ℕ) → result ≡ first_at free_token 0 (tokens_in j rows)) }
{
    for i in 0..32 {
        if rows[i].no.0 == 0 {
            return Some(i);
        }
    }
    None
}

// The tokens' numbers, row by row.
pub fn kept_numbers(rows: [KeptToken; 32]) -> [u64; 32]
    ensures { (result ≡ map kept_number rows) × ((j : List ℕ) → result ≡ map token_number (tokens_in j rows)) }
{
    let mut numbers = [0u64; 32];
    for i in 0..32 {
        numbers[i] = u64::from(rows[i].no.0);
    }
    numbers
}

// The numbers of their parents, row by row.
pub fn kept_parents(rows: [KeptToken; 32]) -> [u64; 32]
    ensures { (result ≡ map kept_parent rows) × ((j : List ℕ) → result ≡ map token_parent (tokens_in j rows)) }
{
    let mut parents = [0u64; 32];
    for i in 0..32 {
        parents[i] = u64::from(rows[i].parent.0);
    }
    parents
}
