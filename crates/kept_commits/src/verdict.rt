// The verdict on a commit over kept tables.
ghost use Rattle.std.specs.Prelude.{◌≡◌, cond, [], ◌<◌};
ghost use Rattle.lists.specs.Lists.{find, hit, miss};
ghost use Rattle.rules.specs.declared.Tables.{Tables};
ghost use Rattle.rules.specs.Numbers.{answer_number};
ghost use Rattle.rules.specs.Tables.{is_token};
ghost use Rattle.rows.specs.Links.{row_if};
ghost use Rattle.commits.specs.Verdicts.{Judged, JudgedIn};
ghost use Rattle.kept.specs.Kept.{session_in};
ghost use Rattle.kept_entries.specs.KeptEntries.{entries_in};
ghost use Rattle.kept_tokens.specs.KeptTokens.{tokens_in};
ghost use Rattle.kept_commits.specs.Early.{commit_early, early_row};

use super::family::kept_family;
use super::within::kept_within;
use commits::{Plan, check_given};
use first_checks::token_fault;
use kept::{KeptEntry, KeptSession, KeptToken, session_in};
use kept_entries::kept_survey;
use kept_tokens::row_in;
use rows::find_row;
use rules::{Refusal, Relay, Token, Volume};

// The first checks, where `k` is the row of the session's token, if it is there. No path is read: the answer is that of any journal.
#[tactic(auto, unfolding(crate::specs::Early::early_row, crate::specs::Early::early_at))]
fn early_kept(
    clock: u64,
    volumes: [Volume; 8],
    s: KeptSession,
    there: bool,
    k: Token,
) -> Result<(), Refusal>
    ensures { answer_number result ≡ early_row clock volumes (session_in [] s) (row_if there k) }
{
    if s.token.0 == 0 {
        return Err(Refusal::Session);
    }
    let Some(i) = find_row(&volumes, s.volume) else {
        return Err(Refusal::NoVolume);
    };
    if !there {
        return Err(Refusal::NoToken);
    }
    token_fault(clock, volumes[i], s.version, k)
}

// All checks, where `k` is the row of the session's token, if it is there, and `at` its place.
fn checks_kept(
    journal: &[u8],
    clock: u64,
    rate: u16,
    volumes: [Volume; 8],
    entries: [KeptEntry; 64],
    tokens: [KeptToken; 32],
    relays: [Relay; 32],
    s: KeptSession,
    there: bool,
    at: usize,
    k: Token,
) -> Result<Plan, Refusal>
    requires { (find (is_token s.token) (tokens_in journal.now tokens) ≡ cond there (hit at k) miss) × (at < 32) }
    ensures { JudgedIn clock rate volumes (entries_in journal.now entries) (tokens_in journal.now tokens) relays (session_in journal.now s) result }
{
    let e = kept_survey(journal, entries, s.volume, s.puts, s.count);
    let within = kept_within(tokens);
    let f = kept_family(journal, tokens, k);
    let d = session_in(journal, s);
    check_given(clock, rate, volumes, relays, d, e, within, there, at, k, f)
}

// The first checks, then all of them. One that its first checks refuse reads neither the entries nor the relays.
pub fn kept_verdict(
    journal: &[u8],
    clock: u64,
    rate: u16,
    volumes: [Volume; 8],
    entries: [KeptEntry; 64],
    tokens: [KeptToken; 32],
    relays: [Relay; 32],
    s: KeptSession,
) -> Result<Plan, Refusal>
    ensures { (t : Tables) → t.clock ≡ clock → t.rate ≡ rate → t.volumes ≡ volumes → t.entries ≡ entries_in journal.now entries → t.tokens ≡ tokens_in journal.now tokens → t.relays ≡ relays → Judged t (session_in journal.now s) (commit_early t (session_in journal.now s)) result }
{
    let x = row_in(journal, tokens, s.token);
    early_kept(clock, volumes, s, x.there, x.row)?;
    checks_kept(
        journal, clock, rate, volumes, entries, tokens, relays, s, x.there, x.at, x.row,
    )
}
