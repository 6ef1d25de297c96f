// Stage.
ghost use Rattle.std.specs.Prelude.{◌≡◌, true, ◌&&◌, ◌<◌, leb, take};
ghost use Rattle.lists.specs.Lists.{hit, find};
ghost use Rattle.text.specs.Text.{path_limit, is_path};
ghost use Rattle.rules.specs.declared.Tables.{Tables};
ghost use Rattle.rules.specs.Limits.{size_limit};
ghost use Rattle.rules.specs.Tables.{is_put, staged};
ghost use Rattle.rules.specs.SessionCalls.{new_put, restaged, staged_next, stage_rule, stage_token, stage_put};
ghost use Rattle.sessions.specs.Parts.{on_session};
ghost use Rattle.rows.specs.Links.{row_if};
ghost use Rattle.sessions.specs.Rows.{stage_found};

use super::SessionOutcome;
use super::answers::{accept, refuse};
use rows::{find_put, find_row};
use rules::{Hash, Put, Refusal, Session, Tables, Token};
use text::Text;
use text::path::is_path;

fn make_put(path: &[u8], size: u64, hash: Hash) -> Put
    ensures { result ≡ new_put (take path_limit path.now) size hash }
{
    Put {
        path: Text::truncated(path),
        size,
        hash,
    }
}

// The put at a place is replaced.
fn put_again(s: Session, j: usize, p: Put) -> Session
    requires { j < 8 }
    ensures { result ≡ restaged s j p }
{
    let mut next = s;
    next.puts[j] = p;
    next
}

// The put takes the next place.
fn put_next(s: Session, p: Put) -> Session
    requires { s.count < 8 }
    ensures { result ≡ staged_next s p }
{
    let count = s.count;
    let mut next = s;
    next.puts[count] = p;
    next.count = count + 1;
    next
}

// A path that is staged already keeps its place; another takes the next.
fn stage_put(s: Session, p: Put, path: &[u8]) -> SessionOutcome
    ensures { (t : Tables) → on_session t result ≡ stage_put t s p (find (is_put path.now) (staged s)) }
{
    let puts = s.puts;
    let count = s.count;
    let Some(j) = find_put(&puts, count, path) else {
        if 8 <= count {
            return refuse(s, Refusal::Room);
        }
        return accept(put_next(s, p));
    };
    accept(put_again(s, j, p))
}

// From the token's row on.
fn stage_token(s: Session, k: Token, path: &[u8], size: u64, hash: Hash) -> SessionOutcome
    requires { is_path path.now ≡ true }
    ensures { (t : Tables) → on_session t result ≡ stage_token t s path.now size hash (hit 0 k) }
{
    let scope = k.scope;
    let prefix = scope.prefix;
    if !prefix.covers(path) {
        return refuse(s, Refusal::Prefix);
    }
    let p = make_put(path, size, hash);
    stage_put(s, p, path)
}

// The path is one, and the size is within its limit.
fn stage_fits(path: &[u8], size: u64) -> bool
    ensures { result ≡ (is_path path.now && leb size size_limit) }
{
    if !is_path(path) {
        return false;
    }
    size <= 68719476736
}

// A session stages an object, where `k` is the row of the session's token, if it is there.
#[tactic(auto, unfolding(crate::specs::Rows::stage_found))]
pub(crate) fn stage_row(
    s: Session,
    there: bool,
    k: Token,
    path: &[u8],
    size: u64,
    hash: Hash,
) -> SessionOutcome
    ensures { (t : Tables) → on_session t result ≡ stage_found path.now size hash t s (row_if there k) }
{
    if !stage_fits(path, size) {
        return refuse(s, Refusal::Bad);
    }
    if s.token.0 == 0 {
        return refuse(s, Refusal::Session);
    }
    if !there {
        return refuse(s, Refusal::NoToken);
    }
    stage_token(s, k, path, size, hash)
}

// A session stages an object; nothing is stored yet.
pub fn stage_on(t: Tables, s: Session, path: &[u8], size: u64, hash: Hash) -> SessionOutcome
    ensures { on_session t result ≡ stage_rule path.now size hash t s }
{
    let n = s.token;
    let rows = t.tokens;
    let Some(i) = find_row(&rows, n) else {
        let none = rules::fresh_token();
        return stage_row(s, false, none, path, size, hash);
    };
    let k = rows[i];
    stage_row(s, true, k, path, size, hash)
}
