// A token and its ancestors, in a table of kept tokens.
ghost use Rattle.std.specs.Prelude.{◌≡◌, ◌≤◌, take};
ghost use Rattle.rules.specs.Scope.{family};
ghost use Rattle.kept_tokens.specs.KeptTokens.{tokens_in};

use commits::Family;
use kept::{KeptToken, token_in};
use kept_tokens::kept_numbers;
use rows::find_number;
use rules::Token;

// The token and its ancestors, which are followed up to a chain of 8. Only their rows are read from the journal.
pub fn kept_family(journal: &[u8], rows: [KeptToken; 32], k: Token) -> Family
    ensures { (take result.len result.tokens ≡ family (tokens_in journal.now rows) k) × (result.len ≤ 8) }
{
    let numbers = kept_numbers(rows);
    let mut tokens = [k; 8];
    let mut n: usize = 1;
    let mut parent = u64::from(k.parent.0);
    while n < 8 {
        let Some(i) = find_number(&numbers, parent) else {
            return Family { tokens, len: n };
        };
        let x = rows[i];
        tokens[n] = token_in(journal, x);
        parent = u64::from(x.parent.0);
        n += 1;
    }
    Family { tokens, len: n }
}
