// The limits that a commit's sums rest on.
ghost use Rattle.std.specs.Prelude.{◌≡◌, ◌&&◌, ◌≤◌, take};
ghost use Rattle.lists.specs.Lists.{all_of};
ghost use Rattle.surveys.specs.RowLimits.{volume_within, token_within, relay_within, put_within, session_within, can_check, can_store};

use rows::shards_fit;
use rules::{Put, Relay, Session, Token, Volume};

#[tactic(auto, unfolding(crate::specs::RowLimits::volume_within))]
fn volume_within(v: Volume) -> bool
    ensures { result ≡ volume_within v }
{
    v.no.0 == 0 || shards_fit(v.k, v.m)
}

#[tactic(auto, unfolding(crate::specs::RowLimits::relay_within))]
fn relay_within(x: Relay) -> bool
    ensures { result ≡ relay_within x }
{
    x.no.0 == 0 || (x.used <= 4398046511104 && x.held <= 64)
}

#[tactic(auto, unfolding(crate::specs::RowLimits::put_within))]
fn put_within(p: Put) -> bool
    ensures { result ≡ put_within p }
{
    p.size <= 68719476736
}

fn all_volumes(rows: [Volume; 8]) -> bool
    ensures { result ≡ all_of volume_within rows }
{
    rows.iter().all(|v| volume_within(*v))
}

#[tactic(auto, unfolding(crate::specs::RowLimits::token_within))]
fn all_tokens(rows: [Token; 32]) -> bool
    ensures { result ≡ all_of token_within rows }
{
    rows.iter()
        .all(|k| k.no.0 == 0 || k.used <= 1152921504606846976)
}

fn all_relays(rows: [Relay; 32]) -> bool
    ensures { result ≡ all_of relay_within rows }
{
    rows.iter().all(|x| relay_within(*x))
}

// The first `count` puts.
fn all_puts(rows: [Put; 8], count: usize) -> bool
    requires { count ≤ 8 }
    ensures { result ≡ all_of put_within (take count rows) }
{
    rows[..count].iter().all(|p| put_within(*p))
}

#[tactic(auto, unfolding(crate::specs::RowLimits::session_within))]
fn session_within(s: Session) -> bool
    ensures { result ≡ session_within s }
{
    s.count <= 8 && all_puts(s.puts, s.count)
}

// Whether the sums of the checks fit: of the session, the volumes, the relays, and the bytes that stay.
#[tactic(auto, unfolding(crate::specs::RowLimits::can_check))]
pub fn can_check(volumes: [Volume; 8], relays: [Relay; 32], s: Session, kept: u64) -> bool
    ensures { result ≡ can_check volumes relays s kept }
{
    session_within(s) && all_volumes(volumes) && all_relays(relays) && kept <= 4398046511104
}

// Whether the puts can be stored: the rows of the volume and the token are in their tables, the volume's version is not the last, and the session and
// the tokens are within their limits.
#[tactic(auto, unfolding(crate::specs::RowLimits::can_store))]
pub fn can_store(
    volumes: [Volume; 8],
    tokens: [Token; 32],
    s: Session,
    volume: usize,
    token: usize,
) -> bool
    ensures { result ≡ can_store volumes tokens s volume token }
{
    volume < 8
        && volumes[volume].version < 4294967295
        && session_within(s)
        && all_tokens(tokens)
        && token < 32
}

// Whether the entries, of which `within` says it, and the tokens are within their limits.
pub fn others_within(within: bool, tokens: [Token; 32]) -> bool
    ensures { result ≡ (within && all_of token_within tokens) }
{
    within && all_tokens(tokens)
}
