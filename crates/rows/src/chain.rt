// The chain of a token: the token, its parent, and so on. It is followed in two lists, the tokens' numbers and their parents' numbers, so that
// no step reads the table.
ghost use Rattle.std.specs.Prelude.{◌≡◌, ◌+◌, ◌<◌, IfSome, length, map};
ghost use Rattle.lists.specs.Lists.{first_at};
ghost use Rattle.rules.specs.Tables.{numbered};
ghost use Rattle.rules.specs.Scope.{depth};
ghost use Rattle.rows.specs.Links.{token_number, token_parent, chain_in};

use rules::Token;

// The tokens' numbers, row by row.
pub fn token_numbers(rows: &[Token; 32]) -> [u64; 32]
    ensures { result ≡ map token_number rows.now }
{
    let mut numbers = [0; 32];
    for i in 0..32 {
        numbers[i] = u64::from(rows[i].no.0);
    }
    numbers
}

// The numbers of their parents, row by row.
pub fn token_parents(rows: &[Token; 32]) -> [u64; 32]
    ensures { result ≡ map token_parent rows.now }
{
    let mut parents = [0; 32];
    for i in 0..32 {
        parents[i] = u64::from(rows[i].parent.0);
    }
    parents
}

// Where the number n stands first.
pub fn find_number(numbers: &[u64], n: u64) -> Option<usize>
    ensures place { result ≡ first_at (numbered n) 0 numbers.now }
    ensures within { IfSome result (λ i. i < length numbers.now) }
{
    numbers.iter().position(|number| n != 0 && *number == n)
}

// How many tokens the chain of a token with this parent has, the token among them: 9 stands for any number above 8 and for a ring.
pub fn depth_in(numbers: &[u64; 32], parents: &[u64; 32], parent: u64) -> usize
    ensures { result ≡ 1 + length (chain_in numbers.now parents.now 8 parent) }
{
    let mut next = parent;
    for n in 1..9 {
        let Some(i) = find_number(numbers, next) else {
            return n;
        };
        next = parents[i];
    }
    9
}

// The same of a token and the table.
pub fn depth_of(rows: &[Token; 32], k: &Token) -> usize
    ensures { result ≡ depth rows.now k.now }
{
    let numbers = token_numbers(rows);
    let parents = token_parents(rows);
    depth_in(&numbers, &parents, u64::from(k.parent.0))
}
