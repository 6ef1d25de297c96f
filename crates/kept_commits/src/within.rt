// The limits that a commit's sums rest on, over kept rows. No text is read: each contract says it first of the kept rows, then of the rows that they
// stand for, whatever the journal.
ghost use Rattle.std.specs.Prelude.{◌≡◌, true, List, ℕ, ◌*◌, ◌≤◌, ◌^◌, take};
ghost use Rattle.lists.specs.Lists.{all_of, sum_of};
ghost use Rattle.surveys.specs.RowLimits.{token_within};
ghost use Rattle.kept_tokens.specs.KeptTokens.{tokens_in};
ghost use Rattle.kept_commits.specs.KeptLimits.{within_kept, put_kept, kept_size, session_kept, can_keep};

use kept::{KeptPut, KeptSession, KeptToken};
use rules::Volume;

// Whether the tokens are within their limits.
pub fn kept_within(rows: [KeptToken; 32]) -> bool
    ensures { (result ≡ all_of within_kept rows) × ((j : List ℕ) → result ≡ all_of token_within (tokens_in j rows)) }
{
    for i in 0..32 {
        if rows[i].no.0 != 0 {
            if 1152921504606846976 < rows[i].used {
                return false;
            }
        }
    }
    true
}

// The first `count` puts.
fn all_kept_puts(puts: [KeptPut; 8], count: usize) -> bool
    requires { count ≤ 8 }
    ensures { result ≡ all_of put_kept (take count puts) }
{
    for i in 0..count {
        if 68719476736 < puts[i].size {
            return false;
        }
    }
    true
}

#[tactic(auto, unfolding(crate::specs::KeptLimits::session_kept))]
fn session_kept(s: KeptSession) -> bool
    ensures { result ≡ session_kept s }
{
    if 8 < s.count {
        return false;
    }
    let puts = s.puts;
    all_kept_puts(puts, s.count)
}

// Whether the puts can be stored: the rows of the volume and the token are in their tables, the volume's version is not the last, and the session and
// the tokens are within their limits.
#[tactic(auto, unfolding(crate::specs::KeptLimits::can_keep))]
pub(crate) fn can_keep(
    volumes: [Volume; 8],
    tokens: [KeptToken; 32],
    s: KeptSession,
    volume: usize,
    token: usize,
) -> bool
    ensures { result ≡ can_keep volumes tokens s volume token }
{
    if 8 <= volume {
        return false;
    }
    if 4294967295 <= volumes[volume].version {
        return false;
    }
    if !session_kept(s) {
        return false;
    }
    if !kept_within(tokens) {
        return false;
    }
    token < 32
}

// The sizes of the first `count` puts.
pub(crate) fn kept_bytes(puts: [KeptPut; 8], count: usize) -> u64
    requires { (count ≤ 8) × (all_of put_kept (take count puts) ≡ true) }
    ensures { (result ≡ sum_of kept_size (take count puts)) × (result ≤ 8 * 2 ^ 36) }
{
    let mut sum: u64 = 0;
    for i in 0..count {
        sum += puts[i].size;
    }
    sum
}
