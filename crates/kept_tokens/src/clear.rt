// Rows of the table that go: those of a set, those of a volume, and those of the volumes that are collected.
ghost use Rattle.std.specs.Prelude.{◌≡◌, ◌&&◌, List, ℕ};
ghost use Rattle.lists.specs.Lists.{any_of};
ghost use Rattle.rules.specs.Fresh.{fresh_token};
ghost use Rattle.rules.specs.Tables.{given, numbered, cleared};
ghost use Rattle.rules.specs.VolumeCalls.{is_token_of};
ghost use Rattle.tokens.specs.Dropped.{cleared_in};
ghost use Rattle.kept.specs.Kept.{fresh_kept_token};
ghost use Rattle.kept_tokens.specs.KeptTokens.{tokens_in, token_gone};

use kept::{KeptToken, fresh_kept_token};
use rows::{in_set, is_number};
use rules::VolumeNo;

// The table with the rows of the set as fresh ones: one bit for each row, the first row's lowest.
pub fn clear_kept(rows: [KeptToken; 32], set: u32) -> [KeptToken; 32]
    ensures { (result ≡ cleared_in set fresh_kept_token rows) × ((j : List ℕ) → tokens_in j result ≡ cleared_in set fresh_token (tokens_in j rows)) }
{
    let mut next = rows;
    for i in 0..32 {
        if in_set(set, i) {
            next[i] = fresh_kept_token();
        }
    }
    next
}

// Whether a token of this number and volume is volume n's.
fn is_kept_of(n: VolumeNo, no: u32, volume: u32) -> bool
    ensures { result ≡ (given no && numbered n.0 volume) }
{
    if no == 0 {
        return false;
    }
    is_number(n.0, volume)
}

// The tokens without those of a volume.
pub fn drop_kept(rows: [KeptToken; 32], n: VolumeNo) -> [KeptToken; 32]
    ensures { (j : List ℕ) → tokens_in j result ≡ cleared (is_token_of n) fresh_token (tokens_in j rows) }
{
    let mut next = rows;
    for i in 0..32 {
        if is_kept_of(n, rows[i].no.0, rows[i].volume.0) {
            next[i] = fresh_kept_token();
        }
    }
    next
}

// Whether a number is one of these.
fn is_one_of(gone: [u32; 8], n: u32) -> bool
    ensures { result ≡ any_of (numbered n) gone }
{
    gone.iter().any(|x| is_number(n, *x))
}

// Whether a token of this number and volume is one of these volumes'.
fn is_kept_gone(gone: [u32; 8], no: u32, volume: u32) -> bool
    ensures { result ≡ (given no && any_of (numbered volume) gone) }
{
    if no == 0 {
        return false;
    }
    is_one_of(gone, volume)
}

// The tokens without those of these volumes.
pub fn clear_gone(rows: [KeptToken; 32], gone: [u32; 8]) -> [KeptToken; 32]
    ensures { (j : List ℕ) → tokens_in j result ≡ cleared (token_gone gone) fresh_token (tokens_in j rows) }
{
    let mut left = rows;
    for i in 0..32 {
        if is_kept_gone(gone, rows[i].no.0, rows[i].volume.0) {
            left[i] = fresh_kept_token();
        }
    }
    left
}
