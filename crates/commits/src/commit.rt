// Commit: the checks of its row, the placing of its puts, then its effect.
ghost use Rattle.std.specs.Prelude.{◌≡◌, true, cond, List, ◌≤◌, ◌<◌, get_or, take};
ghost use Rattle.lists.specs.Lists.{hit, miss, find, all_of};
ghost use Rattle.rules.specs.Limits.{last_version};
ghost use Rattle.rules.specs.declared.Entry.{Entry};
ghost use Rattle.rules.specs.declared.Token.{Token};
ghost use Rattle.rules.specs.Tables.{is_token};
ghost use Rattle.rules.specs.Scope.{family};
ghost use Rattle.rows.specs.Blank.{blank_volume, blank_token};
ghost use Rattle.commits.specs.Parts.{on_commit};
ghost use Rattle.surveys.specs.RowLimits.{token_within, put_within};
ghost use Rattle.surveys.specs.Survey.{Surveyed};
ghost use Rattle.commits.specs.Within.{commit_within};
ghost use Rattle.commits.specs.Stored.{StoredAs, StoredBy};
ghost use Rattle.commits.specs.Verdicts.{JudgedIn};

use super::answers::refuse;
use super::charge::charge;
use super::checks::check_rows;
use super::family::{Family, family_of};
use super::sizes::staged_bytes;
use super::{CommitOutcome, Plan};
use entries::{any_mark, give_back, store_all};
use rows::find_row;
use rules::{Entry, Refusal, Relay, Session, Tables, Token, TokenNo, Volume};
use surveys::{Findings, can_store, others_within, survey};

// The storing, where it can be done. Without puts the entries are not handed on, and where nothing is replaced no room is given back.
fn store(
    volumes: [Volume; 8],
    entries: [Entry; 64],
    tokens: [Token; 32],
    s: Session,
    plan: Plan,
) -> CommitOutcome
    requires { (plan.volume < 8) × (plan.token < 32) × ((get_or volumes plan.volume blank_volume).version < last_version) × (s.count ≤ 8) × (all_of put_within (take s.count s.puts) ≡ true) × (all_of token_within tokens ≡ true) }
    ensures { StoredAs volumes entries tokens plan.marks plan.volume (get_or volumes plan.volume blank_volume) (get_or tokens plan.token blank_token) (take s.count s.puts) (take s.count plan.places) plan.relays result }
{
    let marks = plan.marks;
    let replaces = any_mark(&marks);
    let i = plan.volume;
    let v = volumes[i];
    let version = v.version + 1;
    let mut next = v;
    next.version = version;
    let mut volumes_after = volumes;
    volumes_after[i] = next;
    let puts = s.puts;
    let bytes = staged_bytes(puts, s.count);
    let j = plan.token;
    let k = tokens[j];
    let tokens_after = charge(tokens, k, bytes);
    let answer = rules::success(version as u64);
    let session = rules::fresh_session();
    let n = v.no;
    let places = plan.places;
    let loaded = plan.relays;
    let mut entries_after = entries;
    let mut relays_after = loaded;
    if replaces {
        let stored = store_all(entries, n, puts, places, s.count);
        entries_after = stored;
        let lighter = give_back(volumes, entries, marks, loaded);
        relays_after = lighter;
    } else {
        if s.count != 0 {
            let stored = store_all(entries, n, puts, places, s.count);
            entries_after = stored;
        }
    }
    CommitOutcome {
        answer,
        volumes: volumes_after,
        entries: entries_after,
        tokens: tokens_after,
        relays: relays_after,
        session,
    }
}

// A commit that its checks do not refuse is stored by their plan: the puts as they were placed, the bytes charged to the token and its ancestors,
// the room of replaced entries given back, and a new version of the volume. 1, with all as it came, where a row is past its table, the version is at
// its end, or the session or the tokens are past their limits. That the plan is that of a verdict on this session and these tables is the caller's to see.
pub fn store_commit(t: Tables, s: Session, plan: Plan) -> CommitOutcome
    ensures { StoredBy t s plan result }
{
    let volumes = t.volumes;
    let tokens = t.tokens;
    if !can_store(volumes, tokens, s, plan.volume, plan.token) {
        return refuse(t, s, Refusal::Bad);
    }
    let entries = t.entries;
    store(volumes, entries, tokens, s, plan)
}

// The row of a token, with its place, or that it has none.
#[derive(Clone, Copy)]
pub(crate) struct TokenRow {
    pub there: bool,
    pub at: usize,
    pub row: Token,
}

fn token_row(tokens: [Token; 32], n: TokenNo) -> TokenRow
    ensures { (find (is_token n) tokens ≡ cond result.there (hit result.at result.row) miss) × (result.at < 32) }
{
    let Some(j) = find_row(&tokens, n) else {
        let none = tokens[0];
        return TokenRow {
            there: false,
            at: 0,
            row: none,
        };
    };
    let row = tokens[j];
    TokenRow {
        there: true,
        at: j,
        row,
    }
}

// The checks of a commit, by what was read of the tables: `e` of the entries; `within`, whether the tokens are within their limits; the token's row, with
// its place, or that it has none; and the token and its ancestors. The refusal, or the plan to store it by.
pub fn check_given(
    clock: u64,
    rate: u16,
    volumes: [Volume; 8],
    relays: [Relay; 32],
    s: Session,
    e: Findings,
    within: bool,
    there: bool,
    at: usize,
    k: Token,
    f: Family,
) -> Result<Plan, Refusal>
    ensures { (entries : List Entry) (tokens : List Token) → Surveyed s.volume (take s.count s.puts) entries e.marks e.within e.kept e.rows → within ≡ all_of token_within tokens → find (is_token s.token) tokens ≡ cond there (hit at k) miss → at < 32 → take f.len f.tokens ≡ family tokens k → f.len ≤ 8 → JudgedIn clock rate volumes entries tokens relays s result }
{
    if s.token.0 == 0 {
        return Err(Refusal::Session);
    }
    if !e.within {
        return Err(Refusal::Bad);
    }
    if !within {
        return Err(Refusal::Bad);
    }
    if 8 < f.len {
        return Err(Refusal::Bad);
    }
    let c = check_rows(clock, rate, volumes, f, relays, s, there, k, e.kept, e.rows)?;
    let places = c.p.places;
    let relays = c.p.rows;
    let marks = e.marks;
    Ok(Plan {
        volume: c.row,
        token: at,
        places,
        relays,
        marks,
    })
}

// The checks of a commit, over the parts of the tables that they read: the refusal, or the plan to store it by. No table
// changes, so a caller that asks first hands the tables to the storing only for a commit that is not refused.
pub fn check_commit(
    clock: u64,
    rate: u16,
    volumes: [Volume; 8],
    entries: [Entry; 64],
    tokens: [Token; 32],
    relays: [Relay; 32],
    s: Session,
) -> Result<Plan, Refusal>
    ensures { JudgedIn clock rate volumes entries tokens relays s result }
{
    let e = survey(entries, s.volume, s.puts, s.count);
    let within = others_within(true, tokens);
    let x = token_row(tokens, s.token);
    let f = family_of(tokens, x.row);
    check_given(
        clock, rate, volumes, relays, s, e, within, x.there, x.at, x.row, f,
    )
}

// The session's puts are stored.
pub fn commit_on(t: Tables, s: Session) -> CommitOutcome
    ensures { on_commit t result ≡ commit_within t s }
{
    match check_commit(t.clock, t.rate, t.volumes, t.entries, t.tokens, t.relays, s) {
        Err(why) => refuse(t, s, why),
        Ok(plan) => store_commit(t, s, plan),
    }
}
