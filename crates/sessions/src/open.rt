// Open.
ghost use Rattle.std.specs.Prelude.{◌≡◌};
ghost use Rattle.lists.specs.Lists.{hit};
ghost use Rattle.rules.specs.declared.Tables.{Tables};
ghost use Rattle.rules.specs.SessionCalls.{open_rule, open_token, open_volume, opened};
ghost use Rattle.sessions.specs.Parts.{on_session};
ghost use Rattle.rows.specs.Links.{row_if};
ghost use Rattle.sessions.specs.Rows.{open_found};

use super::SessionOutcome;
use super::answers::{accept, refuse};
use rows::{can_write, find_row, in_window, is_active};
use rules::{Refusal, Session, Tables, Token, TokenNo, Volume, VolumeNo};

// A session with nothing staged.
fn new_session(n: TokenNo, v: VolumeNo, version: u32) -> Session
    ensures { result ≡ opened n v version }
{
    let put = rules::fresh_put();
    Session {
        token: n,
        volume: v,
        version,
        count: 0,
        puts: [put; 8],
    }
}

// From the volume's row on.
fn open_volume(s: Session, n: TokenNo, v: Volume) -> SessionOutcome
    ensures { (t : Tables) → on_session t result ≡ open_volume t s n (hit 0 v) }
{
    let status = v.status;
    if !is_active(status) {
        return refuse(s, Refusal::State);
    }
    let no = v.no;
    accept(new_session(n, no, v.version))
}

// From the token's row on.
fn open_token(clock: u64, volumes: [Volume; 8], s: Session, k: Token) -> SessionOutcome
    ensures { (t : Tables) → t.clock ≡ clock → t.volumes ≡ volumes → on_session t result ≡ open_token t s (hit 0 k) }
{
    if !in_window(clock, &k.scope) {
        return refuse(s, Refusal::Window);
    }
    if !can_write(k.scope.mode) {
        return refuse(s, Refusal::Mode);
    }
    let Some(i) = find_row(&volumes, k.volume) else {
        return refuse(s, Refusal::State);
    };
    open_volume(s, k.no, volumes[i])
}

// A session begins in an idle slot, where these are the clock and the volumes, and `k` is the token's row, if it is there.
pub(crate) fn open_row(
    clock: u64,
    volumes: [Volume; 8],
    s: Session,
    there: bool,
    k: Token,
) -> SessionOutcome
    ensures { (t : Tables) → t.clock ≡ clock → t.volumes ≡ volumes → on_session t result ≡ open_found t s (row_if there k) }
{
    if s.token.0 != 0 {
        return refuse(s, Refusal::Session);
    }
    if !there {
        return refuse(s, Refusal::NoToken);
    }
    open_token(clock, volumes, s, k)
}

// A session begins in an idle slot, under a token.
pub fn open_on(t: Tables, s: Session, n: TokenNo) -> SessionOutcome
    ensures { on_session t result ≡ open_rule n t s }
{
    let volumes = t.volumes;
    let rows = t.tokens;
    let Some(i) = find_row(&rows, n) else {
        let none = rules::fresh_token();
        return open_row(t.clock, volumes, s, false, none);
    };
    let k = rows[i];
    open_row(t.clock, volumes, s, true, k)
}
