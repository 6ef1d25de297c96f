// Open.
ghost use Rattle.std.specs.Prelude.{◌≡◌, List, ℕ};
ghost use Rattle.lists.specs.Lists.{hit};
ghost use Rattle.rules.specs.declared.Tables.{Tables};
ghost use Rattle.rules.specs.SessionCalls.{open_token, open_volume};
ghost use Rattle.rows.specs.Links.{row_if};
ghost use Rattle.sessions.specs.Rows.{open_found};
ghost use Rattle.kept.specs.Kept.{session_in};
ghost use Rattle.kept_sessions.specs.Parts.{on_kept_session, kept_opened};

use super::KeptOutcome;
use super::answers::{accept, refuse};
use kept::KeptSession;
use rows::{can_write, find_row, in_window, is_active};
use rules::{Refusal, Token, TokenNo, Volume, VolumeNo};

// A session with nothing staged.
fn new_session(n: TokenNo, v: VolumeNo, version: u32) -> KeptSession
    ensures { result ≡ kept_opened n v version }
{
    let put = kept::fresh_kept_put();
    KeptSession {
        token: n,
        volume: v,
        version,
        count: 0,
        puts: [put; 8],
    }
}

// From the volume's row on.
fn open_volume(s: KeptSession, n: TokenNo, v: Volume) -> KeptOutcome
    ensures { (j : List ℕ) (t : Tables) → on_kept_session j t result ≡ open_volume t (session_in j s) n (hit 0 v) }
{
    let status = v.status;
    if !is_active(status) {
        return refuse(s, Refusal::State);
    }
    let no = v.no;
    accept(new_session(n, no, v.version))
}

// From the token's row on.
fn open_token(clock: u64, volumes: [Volume; 8], s: KeptSession, k: Token) -> KeptOutcome
    ensures { (j : List ℕ) (t : Tables) → t.clock ≡ clock → t.volumes ≡ volumes → on_kept_session j t result ≡ open_token t (session_in j s) (hit 0 k) }
{
    let scope = k.scope;
    let mode = scope.mode;
    let no = k.no;
    let volume = k.volume;
    if !in_window(clock, &scope) {
        return refuse(s, Refusal::Window);
    }
    if !can_write(mode) {
        return refuse(s, Refusal::Mode);
    }
    let Some(i) = find_row(&volumes, volume) else {
        return refuse(s, Refusal::State);
    };
    let v = volumes[i];
    open_volume(s, no, v)
}

// A session begins in an idle slot, where these are the clock and the volumes, and `k` is the token's row, if it is there.
pub fn open_kept(
    clock: u64,
    volumes: [Volume; 8],
    s: KeptSession,
    there: bool,
    k: Token,
) -> KeptOutcome
    ensures { (j : List ℕ) (t : Tables) → t.clock ≡ clock → t.volumes ≡ volumes → on_kept_session j t result ≡ open_found t (session_in j s) (row_if there k) }
{
    if s.token.0 != 0 {
        return refuse(s, Refusal::Session);
    }
    if !there {
        return refuse(s, Refusal::NoToken);
    }
    open_token(clock, volumes, s, k)
}
