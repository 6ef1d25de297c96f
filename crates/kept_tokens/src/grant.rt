// Grant, where the prefix is a place in the journal.
ghost use Rattle.std.specs.Prelude.{◌≡◌};
ghost use Rattle.rules.specs.declared.Tables.{Tables};
ghost use Rattle.rules.specs.TokenCalls.{grant_rule};
ghost use Rattle.scopes.specs.Arguments.{scope_arg};
ghost use Rattle.kept.specs.Kept.{bytes_in};
ghost use Rattle.kept_tokens.specs.KeptTokens.{tokens_in};
ghost use Rattle.kept_tokens.specs.Calls.{on_kept_tokens};

use super::KeptTokens;
use super::find::free_kept;
use super::store::store_kept;
use amount::Cap;
use kept::{KeptToken, bytes_in};
use rules::{Account, Mode, Volume, VolumeNo};
use tokens::{grant_row, is_found};

// The owner of the volume n gets a token for what lies under the prefix.
pub fn grant_kept(
    journal: &[u8],
    volumes: [Volume; 8],
    rows: [KeptToken; 32],
    last: u32,
    a: Account,
    n: VolumeNo,
    at: usize,
    len: usize,
    mode: Mode,
    cap: Cap,
    from: u64,
    until: u64,
) -> KeptTokens
    ensures { (t : Tables) → t.volumes ≡ volumes → t.tokens ≡ tokens_in journal.now rows → t.last_token ≡ last → on_kept_tokens journal.now t result ≡ grant_rule a n (scope_arg (bytes_in journal.now at len) mode cap from until) t }
{
    let f = free_kept(rows);
    let free = is_found(f);
    let prefix = bytes_in(journal, at, len);
    let o = grant_row(volumes, last, free, a, n, prefix, mode, cap, from, until);
    store_kept(rows, last, f, at, len, o)
}
