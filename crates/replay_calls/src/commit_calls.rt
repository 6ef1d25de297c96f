// Commit.
ghost use Rattle.std.specs.Prelude.{◌≡◌};
ghost use Rattle.rules.specs.Numbers.{refusal_number};
ghost use Rattle.replay_calls.specs.Held.{kept_refusal, CommitDone};

use super::Held;
use journal_calls::Item;
use kept::{KeptEntry, KeptSession, KeptToken, kept_slot};
use kept_commits::{KeptCommit, kept_verdict, store_kept_commit};
use rules::{Refusal, Relay, Tables, Volume};

// A refusal: everything is as it came.
fn refuse(
    volumes: [Volume; 8],
    entries: [KeptEntry; 64],
    tokens: [KeptToken; 32],
    relays: [Relay; 32],
    session: KeptSession,
    why: Refusal,
) -> KeptCommit
    ensures { result ≡ kept_refusal volumes entries tokens relays session (refusal_number why) }
{
    let answer = rules::refusal(why);
    KeptCommit {
        answer,
        volumes,
        entries,
        tokens,
        relays,
        session,
    }
}

// The session of the record's slot is committed: its checks give a verdict, and one that is not refused is stored by its plan.
pub fn commit_call(
    journal: &[u8],
    t: Tables,
    h: Held,
    slots: [KeptSession; 4],
    relays: [Relay; 32],
    item: Item,
) -> KeptCommit
    ensures { CommitDone journal.now t h slots relays item.fields result }
{
    let s = kept_slot(slots, item.fields.slot as usize);
    match kept_verdict(
        journal, t.clock, t.rate, t.volumes, h.entries, h.tokens, relays, s,
    ) {
        Err(why) => refuse(t.volumes, h.entries, h.tokens, relays, s, why),
        Ok(plan) => store_kept_commit(journal, t.volumes, h.entries, h.tokens, relays, s, plan),
    }
}
