// The calls on a slot, but for commit. The record begins at `from`.
ghost use Rattle.std.specs.Prelude.{◌≡◌, List};
ghost use Rattle.rules.specs.declared.Relay.{Relay};
ghost use Rattle.rules.specs.SessionCalls.{open_rule, stage_rule};
ghost use Rattle.kept.specs.Kept.{session_in};
ghost use Rattle.journal.specs.Places.{text_at, hash_at};
ghost use Rattle.kept_sessions.specs.Parts.{on_kept_session};
ghost use Rattle.journal_calls.specs.NextLaws.{body_at};
ghost use Rattle.replay_calls.specs.Held.{held_tables, SlotDone};

use super::Held;
use journal::hash_of;
use journal_calls::{Item, SlotCall, body_at, text_place};
use kept::{KeptSession, kept_slot};
use kept_sessions::{KeptOutcome, abandon_kept, open_kept, stage_kept};
use kept_tokens::row_in;
use rules::{Tables, TokenNo};

fn open_slot(journal: &[u8], t: Tables, h: Held, s: KeptSession, n: TokenNo) -> KeptOutcome
    ensures { (relays : List Relay) → on_kept_session journal.now (held_tables journal.now t h relays) result ≡ open_rule n (held_tables journal.now t h relays) (session_in journal.now s) }
{
    let rows = h.tokens;
    let x = row_in(journal, rows, n);
    let k = x.row;
    let volumes = t.volumes;
    open_kept(t.clock, volumes, s, x.there, k)
}

fn stage_slot(
    journal: &[u8],
    from: usize,
    t: Tables,
    h: Held,
    s: KeptSession,
    item: Item,
) -> KeptOutcome
    ensures { (relays : List Relay) → on_kept_session journal.now (held_tables journal.now t h relays) result ≡ stage_rule (text_at item.fields (body_at from item.after journal.now)) item.fields.amount (record { 0 = hash_at item.fields (body_at from item.after journal.now) }) (held_tables journal.now t h relays) (session_in journal.now s) }
{
    let rows = h.tokens;
    let n = s.token;
    let x = row_in(journal, rows, n);
    let k = x.row;
    let r = item.fields;
    let place = text_place(journal, from, item);
    let body = body_at(journal, from, item.after);
    let hash = hash_of(body, r);
    stage_kept(journal, s, x.there, k, place.at, place.len, r.amount, hash)
}

pub fn slot_call(
    journal: &[u8],
    from: usize,
    t: Tables,
    h: Held,
    slots: [KeptSession; 4],
    which: SlotCall,
    item: Item,
) -> KeptOutcome
    ensures { SlotDone journal.now t h slots which item.fields (body_at from item.after journal.now) result }
{
    let s = kept_slot(slots, item.fields.slot as usize);
    match which {
        SlotCall::Open => open_slot(journal, t, h, s, TokenNo(item.fields.no)),
        SlotCall::Stage => stage_slot(journal, from, t, h, s, item),
        SlotCall::Abandon => abandon_kept(s),
    }
}
