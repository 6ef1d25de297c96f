// Attenuate, where the prefix is a place in the journal.
ghost use Rattle.std.specs.Prelude.{◌≡◌, cond, map, ℕ, ◌+◌, length};
ghost use Rattle.lists.specs.Lists.{hit, miss};
ghost use Rattle.rules.specs.declared.Tables.{Tables};
ghost use Rattle.rules.specs.declared.TokenNo.{TokenNo};
ghost use Rattle.rules.specs.Tables.{token_of};
ghost use Rattle.rules.specs.TokenCalls.{attenuate_rule};
ghost use Rattle.rows.specs.Links.{chain_in};
ghost use Rattle.scopes.specs.Arguments.{scope_arg};
ghost use Rattle.kept.specs.Kept.{bytes_in};
ghost use Rattle.kept_tokens.specs.KeptTokens.{tokens_in, kept_number, kept_parent};
ghost use Rattle.kept_tokens.specs.Calls.{on_kept_tokens};

use super::KeptTokens;
use super::find::{free_kept, kept_numbers, kept_parents};
use super::row::row_in;
use super::store::store_kept;
use amount::Cap;
use kept::{KeptToken, bytes_in};
use rows::depth_in;
use rules::{Mode, Token, TokenNo};
use tokens::{attenuate_row, is_found};

// How many tokens the chain of a token with this parent has.
fn kept_depth(rows: [KeptToken; 32], parent: u32) -> usize
    ensures { result ≡ 1 + length (chain_in (map kept_number rows) (map kept_parent rows) 8 parent) }
{
    let numbers = kept_numbers(rows);
    let parents = kept_parents(rows);
    depth_in(&numbers, &parents, u64::from(parent))
}

// From the parent's row on.
fn attenuate_at(
    journal: &[u8],
    rows: [KeptToken; 32],
    last: u32,
    there: bool,
    k: Token,
    at: usize,
    len: usize,
    mode: Mode,
    cap: Cap,
    from: u64,
    until: u64,
) -> KeptTokens
    ensures { (t : Tables) (n : TokenNo) (i : ℕ) → t.tokens ≡ tokens_in journal.now rows → t.last_token ≡ last → token_of n t ≡ cond there (hit i k) miss → on_kept_tokens journal.now t result ≡ attenuate_rule n (scope_arg (bytes_in journal.now at len) mode cap from until) t }
{
    let deep = kept_depth(rows, k.parent.0);
    let f = free_kept(rows);
    let free = is_found(f);
    let prefix = bytes_in(journal, at, len);
    let o = attenuate_row(there, k, deep, last, free, prefix, mode, cap, from, until);
    store_kept(rows, last, f, at, len, o)
}

// The token n gets a child whose scope lies within its own.
pub fn attenuate_kept(
    journal: &[u8],
    rows: [KeptToken; 32],
    last: u32,
    n: TokenNo,
    at: usize,
    len: usize,
    mode: Mode,
    cap: Cap,
    from: u64,
    until: u64,
) -> KeptTokens
    ensures { (t : Tables) → t.tokens ≡ tokens_in journal.now rows → t.last_token ≡ last → on_kept_tokens journal.now t result ≡ attenuate_rule n (scope_arg (bytes_in journal.now at len) mode cap from until) t }
{
    let x = row_in(journal, rows, n);
    let k = x.row;
    attenuate_at(
        journal, rows, last, x.there, k, at, len, mode, cap, from, until,
    )
}
