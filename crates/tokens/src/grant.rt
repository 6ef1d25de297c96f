// Grant: the owner of a volume makes a root token for it.
ghost use Rattle.std.specs.Prelude.{◌≡◌, true, cond, ℕ};
ghost use Rattle.lists.specs.Lists.{find, hit, miss};
ghost use Rattle.text.specs.Text.{is_prefix};
ghost use Rattle.rules.specs.declared.Tables.{Tables};
ghost use Rattle.rules.specs.declared.Token.{Token};
ghost use Rattle.rules.specs.Tables.{free_token};
ghost use Rattle.rules.specs.TokenCalls.{grant_rule, grant_in};
ghost use Rattle.tokens.specs.Parts.{on_tokens, stored_at, HasPrefix};
ghost use Rattle.scopes.specs.Arguments.{scope_arg};

use super::new_tokens::{is_found, new_token, not_stored, store};
use super::scope::make_scope;
use super::{NewToken, TokensOutcome};
use amount::Cap;
use rows::{find_row, free_row, is_open, owned_by};
use rules::{Account, Mode, Refusal, Tables, TokenNo, Volume, VolumeNo};
use scopes::scope_fits;

// From the volume's row on.
fn grant_in(
    v: Volume,
    last: u32,
    free: bool,
    a: Account,
    prefix: &[u8],
    mode: Mode,
    cap: Cap,
    from: u64,
    until: u64,
) -> NewToken
    requires { is_prefix prefix.now ≡ true }
    ensures { ((t : Tables) (i : ℕ) (old : Token) → t.last_token ≡ last → find free_token t.tokens ≡ cond free (hit i old) miss → stored_at t i result ≡ grant_in t a (scope_arg prefix.now mode cap from until) (hit 0 v)) × HasPrefix prefix.now result }
{
    if !owned_by(&v, a) {
        return not_stored(Refusal::NotOwner);
    }
    let status = v.status;
    if !is_open(status) {
        return not_stored(Refusal::State);
    }
    let volume = v.no;
    let scope = make_scope(prefix, mode, cap, from, until);
    new_token(last, free, volume, TokenNo(0), scope)
}

// The same as `grant_on`, of a table of volumes, the last token number given, and whether a row of the tokens is free.
#[tactic(auto, unfolding(rules::specs::TokenCalls::grant_rule, rules::specs::Scope::scope_fits, rules::specs::Tables::volume_of))]
pub fn grant_row(
    volumes: [Volume; 8],
    last: u32,
    free: bool,
    a: Account,
    n: VolumeNo,
    prefix: &[u8],
    mode: Mode,
    cap: Cap,
    from: u64,
    until: u64,
) -> NewToken
    ensures { ((t : Tables) (i : ℕ) (old : Token) → t.volumes ≡ volumes → t.last_token ≡ last → find free_token t.tokens ≡ cond free (hit i old) miss → stored_at t i result ≡ grant_rule a n (scope_arg prefix.now mode cap from until) t) × HasPrefix prefix.now result }
{
    if !scope_fits(prefix, cap, from, until) {
        return not_stored(Refusal::Bad);
    }
    let Some(j) = find_row(&volumes, n) else {
        return not_stored(Refusal::NoVolume);
    };
    let v = volumes[j];
    grant_in(v, last, free, a, prefix, mode, cap, from, until)
}

// The owner of the volume n gets a token for what lies under the prefix.
pub fn grant_on(
    t: Tables,
    a: Account,
    n: VolumeNo,
    prefix: &[u8],
    mode: Mode,
    cap: Cap,
    from: u64,
    until: u64,
) -> TokensOutcome
    ensures { on_tokens t result ≡ grant_rule a n (scope_arg prefix.now mode cap from until) t }
{
    let rows = t.tokens;
    let volumes = t.volumes;
    let last = t.last_token;
    let f = free_row(&rows);
    let free = is_found(f);
    let o = grant_row(volumes, last, free, a, n, prefix, mode, cap, from, until);
    store(rows, last, f, o)
}
