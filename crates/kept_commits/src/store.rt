// The storing of a commit in kept tables: the entries' paths stay in the journal.
ghost use Rattle.std.specs.Prelude.{◌≡◌, true, ◌≤◌, ◌<◌, get_or, take};
ghost use Rattle.lists.specs.Lists.{all_of};
ghost use Rattle.rules.specs.declared.Tables.{Tables};
ghost use Rattle.rules.specs.Limits.{last_version};
ghost use Rattle.rows.specs.Blank.{blank_volume, blank_token};
ghost use Rattle.commits.specs.Stored.{StoredAs, StoredBy};
ghost use Rattle.kept.specs.Kept.{session_in};
ghost use Rattle.kept_entries.specs.KeptEntries.{entries_in, puts_in};
ghost use Rattle.kept_tokens.specs.KeptTokens.{tokens_in};
ghost use Rattle.kept_commits.specs.KeptLimits.{within_kept, put_kept};
ghost use Rattle.kept_commits.specs.KeptStored.{as_commit};

use super::KeptCommit;
use super::charge::charge_staged;
use super::within::can_keep;
use commits::Plan;
use entries::any_mark;
use kept::{KeptEntry, KeptSession, KeptToken, fresh_kept_session};
use kept_entries::{give_kept_back, store_kept};
use rules::{Refusal, Relay, Volume};

// The storing, where it can be done. Without puts the entries are not handed on, and where nothing is replaced no room is given back.
fn store(
    journal: &[u8],
    volumes: [Volume; 8],
    entries: [KeptEntry; 64],
    tokens: [KeptToken; 32],
    s: KeptSession,
    plan: Plan,
) -> KeptCommit
    requires { (plan.volume < 8) × (plan.token < 32) × ((get_or volumes plan.volume blank_volume).version < last_version) × (s.count ≤ 8) × (all_of put_kept (take s.count s.puts) ≡ true) × (all_of within_kept tokens ≡ true) }
    ensures { StoredAs volumes (entries_in journal.now entries) (tokens_in journal.now tokens) plan.marks plan.volume (get_or volumes plan.volume blank_volume) (get_or (tokens_in journal.now tokens) plan.token blank_token) (take s.count (puts_in journal.now s.puts)) (take s.count plan.places) plan.relays (as_commit journal.now result) }
{
    let marks = plan.marks;
    let replaces = any_mark(&marks);
    let i = plan.volume;
    let v = volumes[i];
    let version = v.version + 1;
    let mut next = v;
    next.version = version;
    let mut volumes_after = volumes;
    volumes_after[i] = next;
    let puts = s.puts;
    let tokens_after = charge_staged(journal, tokens, plan.token, puts, s.count);
    let answer = rules::success(version as u64);
    let session = fresh_kept_session();
    let n = v.no;
    let places = plan.places;
    let loaded = plan.relays;
    let mut entries_after = entries;
    let mut relays_after = loaded;
    if replaces {
        let stored = store_kept(journal, entries, n, puts, places, s.count);
        entries_after = stored;
        let lighter = give_kept_back(volumes, entries, marks, loaded);
        relays_after = lighter;
    } else {
        if s.count != 0 {
            let stored = store_kept(journal, entries, n, puts, places, s.count);
            entries_after = stored;
        }
    }
    KeptCommit {
        answer,
        volumes: volumes_after,
        entries: entries_after,
        tokens: tokens_after,
        relays: relays_after,
        session,
    }
}

// A commit that its checks do not refuse is stored by their plan. 1, with all as it came, where a row is past its table, the version is at its end, or
// the session or the tokens are past their limits. That the plan is that of a verdict on this session and these tables is the caller's to see.
pub fn store_kept_commit(
    journal: &[u8],
    volumes: [Volume; 8],
    entries: [KeptEntry; 64],
    tokens: [KeptToken; 32],
    relays: [Relay; 32],
    s: KeptSession,
    plan: Plan,
) -> KeptCommit
    ensures { (t : Tables) → t.volumes ≡ volumes → t.entries ≡ entries_in journal.now entries → t.tokens ≡ tokens_in journal.now tokens → t.relays ≡ relays → StoredBy t (session_in journal.now s) plan (as_commit journal.now result) }
{
    if !can_keep(volumes, tokens, s, plan.volume, plan.token) {
        let answer = rules::refusal(Refusal::Bad);
        return KeptCommit {
            answer,
            volumes,
            entries,
            tokens,
            relays,
            session: s,
        };
    }
    store(journal, volumes, entries, tokens, s, plan)
}
