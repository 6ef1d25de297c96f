// Stage.
ghost use Rattle.std.specs.Prelude.{◌≡◌, true, ◌&&◌, List, ℕ, ◌<◌, leb, take};
ghost use Rattle.lists.specs.Lists.{hit, find, first_at};
ghost use Rattle.text.specs.Text.{is_path};
ghost use Rattle.rules.specs.declared.Tables.{Tables};
ghost use Rattle.rules.specs.Limits.{size_limit};
ghost use Rattle.rules.specs.Tables.{is_put, staged};
ghost use Rattle.rules.specs.SessionCalls.{stage_token, stage_put};
ghost use Rattle.rows.specs.Links.{row_if};
ghost use Rattle.sessions.specs.Rows.{stage_found};
ghost use Rattle.kept.specs.Kept.{bytes_in, put_in, session_in};
ghost use Rattle.kept_sessions.specs.Parts.{on_kept_session, kept_again, kept_next, is_kept_put};

use super::KeptOutcome;
use super::answers::{accept, refuse};
use kept::{KeptPut, KeptSession, bytes_in, text_bytes_in};
use lists::same_bytes;
use rows::put_count;
use rules::{Hash, Refusal, Token};
use text::path::is_path;

// Whether the put is staged at the path.
fn is_kept_put(journal: &[u8], p: KeptPut, path: &[u8]) -> bool
    ensures { result ≡ is_kept_put journal.now path.now p }
{
    let bytes = text_bytes_in(journal, p.at, p.len);
    same_bytes(bytes, path)
}

// Among the first `count` puts.
fn find_kept_put(journal: &[u8], rows: [KeptPut; 8], count: usize, path: &[u8]) -> Option<usize>
    ensures { result ≡ first_at (is_kept_put journal.now path.now) 0 (take count rows) }
{
    let n = put_count(count);
    for i in 0..n {
        let p = rows[i];
        if is_kept_put(journal, p, path) {
            return Some(i);
        }
    }
    None
}

// The put at a place is replaced.
fn put_again(s: KeptSession, i: usize, p: KeptPut) -> KeptSession
    requires { i < 8 }
    ensures { result ≡ kept_again s i p }
{
    let mut next = s;
    next.puts[i] = p;
    next
}

// The put takes the next place.
fn put_next(s: KeptSession, p: KeptPut) -> KeptSession
    requires { s.count < 8 }
    ensures { result ≡ kept_next s p }
{
    let count = s.count;
    let mut next = s;
    next.puts[count] = p;
    next.count = count + 1;
    next
}

// A path that is staged already keeps its place; another takes the next.
fn stage_put(journal: &[u8], s: KeptSession, p: KeptPut, path: &[u8]) -> KeptOutcome
    ensures { (t : Tables) → on_kept_session journal.now t result ≡ stage_put t (session_in journal.now s) (put_in journal.now p) (find (is_put path.now) (staged (session_in journal.now s))) }
{
    let puts = s.puts;
    let count = s.count;
    let Some(i) = find_kept_put(journal, puts, count, path) else {
        if 8 <= count {
            return refuse(s, Refusal::Room);
        }
        return accept(put_next(s, p));
    };
    accept(put_again(s, i, p))
}

// From the token's row on. The put's path is the bytes of the journal at its place.
fn stage_token(journal: &[u8], s: KeptSession, k: Token, p: KeptPut) -> KeptOutcome
    requires { is_path (bytes_in journal.now p.at p.len) ≡ true }
    ensures { (t : Tables) → on_kept_session journal.now t result ≡ stage_token t (session_in journal.now s) (bytes_in journal.now p.at p.len) p.size p.hash (hit 0 k) }
{
    let path = bytes_in(journal, p.at, p.len);
    let scope = k.scope;
    let prefix = scope.prefix;
    if !prefix.covers(path) {
        return refuse(s, Refusal::Prefix);
    }
    stage_put(journal, s, p, path)
}

// The path is one, and the size is within its limit.
fn path_fits(path: &[u8], size: u64) -> bool
    ensures { result ≡ (is_path path.now && leb size size_limit) }
{
    if !is_path(path) {
        return false;
    }
    size <= 68719476736
}

// The same of a path that stands in the journal.
fn stage_fits(journal: &[u8], at: usize, len: usize, size: u64) -> bool
    ensures { result ≡ (is_path (bytes_in journal.now at len) && leb size size_limit) }
{
    let path = bytes_in(journal, at, len);
    path_fits(path, size)
}

// A session stages an object, where `k` is the row of the session's token, if it is there, and the path is the `len` bytes of the journal from `at`
// on.
#[tactic(auto, unfolding(sessions::specs::Rows::stage_found))]
pub fn stage_kept(
    journal: &[u8],
    s: KeptSession,
    there: bool,
    k: Token,
    at: usize,
    len: usize,
    size: u64,
    hash: Hash,
) -> KeptOutcome
    ensures { (t : Tables) → on_kept_session journal.now t result ≡ stage_found (bytes_in journal.now at len) size hash t (session_in journal.now s) (row_if there k) }
{
    if !stage_fits(journal, at, len, size) {
        return refuse(s, Refusal::Bad);
    }
    if s.token.0 == 0 {
        return refuse(s, Refusal::Session);
    }
    if !there {
        return refuse(s, Refusal::NoToken);
    }
    let p = KeptPut {
        at,
        len,
        size,
        hash,
    };
    stage_token(journal, s, k, p)
}
