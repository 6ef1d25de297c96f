// The part of the desk that a call leaves, put back into the whole. Every function answers for every input.
#![tactic(auto)]

ghost use Rattle.std.specs.Prelude.{◌≡◌, get_or, set};
ghost use Rattle.rules.specs.Numbers.{refusal_number};
ghost use Rattle.rules.specs.Fresh.{fresh_session};
ghost use Rattle.rules.specs.Outcome.{desk_refused, on_tables};
ghost use Rattle.rules.specs.Calls.{with_slot};
ghost use Rattle.commits.specs.Parts.{on_commit};
ghost use Rattle.removes.specs.Parts.{on_remove};
ghost use Rattle.epochs.specs.Parts.{on_advance};
ghost use Rattle.relays.specs.Parts.{on_relays};
ghost use Rattle.volumes.specs.Parts.{on_volumes, on_delete};
ghost use Rattle.tokens.specs.Parts.{on_tokens, unchanged};
ghost use Rattle.sessions.specs.Parts.{on_session};

use commits::CommitOutcome;
use epochs::AdvanceOutcome;
use relays::RelaysOutcome;
use removes::RemoveOutcome;
use rules::{Answer, Desk, Outcome, Refusal, Session, fresh_session};
use sessions::SessionOutcome;
use tokens::TokensOutcome;
use volumes::{DeleteOutcome, VolumesOutcome};

// A refusal of this number gives the desk back as it came.
pub fn refuse_numbered(d: Desk, n: u32) -> Outcome
    ensures { result ≡ desk_refused d n }
{
    let answer = rules::numbered_refusal(n);
    Outcome { answer, desk: d }
}

// The same of a reason.
pub fn refuse(d: Desk, why: Refusal) -> Outcome
    ensures { result ≡ desk_refused d (refusal_number why) }
{
    refuse_numbered(d, why.number())
}

// Of a call that changes nothing.
pub fn answered(d: Desk, a: Answer) -> Outcome
    ensures { result ≡ on_tables d (unchanged d.tables a) }
{
    Outcome { answer: a, desk: d }
}

// Of a call on the relays.
pub fn with_relays(d: Desk, o: RelaysOutcome) -> Outcome
    ensures { result ≡ on_tables d (on_relays d.tables o) }
{
    let answer = o.answer;
    let relays = o.relays;
    let mut tables = d.tables;
    tables.relays = relays;
    tables.last_relay = o.last;
    let sessions = d.sessions;
    let desk = Desk { tables, sessions };
    Outcome { answer, desk }
}

// Of create, deposit and undelete.
pub fn with_volumes(d: Desk, o: VolumesOutcome) -> Outcome
    ensures { result ≡ on_tables d (on_volumes d.tables o) }
{
    let answer = o.answer;
    let volumes = o.volumes;
    let mut tables = d.tables;
    tables.volumes = volumes;
    tables.last_volume = o.last;
    tables.deposits = o.deposits;
    let sessions = d.sessions;
    let desk = Desk { tables, sessions };
    Outcome { answer, desk }
}

// Of delete.
pub fn with_delete(d: Desk, o: DeleteOutcome) -> Outcome
    ensures { result ≡ on_tables d (on_delete d.tables o) }
{
    let answer = o.answer;
    let volumes = o.volumes;
    let tokens = o.tokens;
    let mut tables = d.tables;
    tables.volumes = volumes;
    tables.tokens = tokens;
    let sessions = d.sessions;
    let desk = Desk { tables, sessions };
    Outcome { answer, desk }
}

// Of remove.
pub fn with_remove(d: Desk, o: RemoveOutcome) -> Outcome
    ensures { result ≡ on_tables d (on_remove d.tables o) }
{
    let answer = o.answer;
    let volumes = o.volumes;
    let entries = o.entries;
    let relays = o.relays;
    let mut tables = d.tables;
    tables.volumes = volumes;
    tables.entries = entries;
    tables.relays = relays;
    let sessions = d.sessions;
    let desk = Desk { tables, sessions };
    Outcome { answer, desk }
}

// Of advance.
pub fn with_advance(d: Desk, o: AdvanceOutcome) -> Outcome
    ensures { result ≡ on_tables d (on_advance d.tables o) }
{
    let answer = o.answer;
    let volumes = o.volumes;
    let entries = o.entries;
    let tokens = o.tokens;
    let relays = o.relays;
    let mut tables = d.tables;
    tables.clock = o.clock;
    tables.volumes = volumes;
    tables.entries = entries;
    tables.tokens = tokens;
    tables.relays = relays;
    let sessions = d.sessions;
    let desk = Desk { tables, sessions };
    Outcome { answer, desk }
}

// Of grant, attenuate and revoke.
pub fn with_tokens(d: Desk, o: TokensOutcome) -> Outcome
    ensures { result ≡ on_tables d (on_tokens d.tables o) }
{
    let answer = o.answer;
    let tokens = o.tokens;
    let mut tables = d.tables;
    tables.tokens = tokens;
    tables.last_token = o.last;
    let sessions = d.sessions;
    let desk = Desk { tables, sessions };
    Outcome { answer, desk }
}

// The session of a slot; an idle one where there is no such slot.
pub fn slot_of(d: Desk, slot: usize) -> Session
    ensures { result ≡ get_or d.sessions slot fresh_session }
{
    if 4 <= slot {
        return fresh_session();
    }
    let sessions = d.sessions;
    sessions[slot]
}

// The slots with one of them replaced; as they are where there is no such slot.
fn with_slot(slots: [Session; 4], slot: usize, s: Session) -> [Session; 4]
    ensures { result ≡ set slots slot s }
{
    if 4 <= slot {
        return slots;
    }
    let mut next = slots;
    next[slot] = s;
    next
}

// Of open, stage and abandon: the slot.
pub fn with_session(d: Desk, slot: usize, o: SessionOutcome) -> Outcome
    ensures { result ≡ with_slot d slot (on_session d.tables o) }
{
    let answer = o.answer;
    let session = o.session;
    let slots = d.sessions;
    let sessions = with_slot(slots, slot, session);
    let tables = d.tables;
    let desk = Desk { tables, sessions };
    Outcome { answer, desk }
}

// Of commit: the tables and the slot.
pub fn with_commit(d: Desk, slot: usize, o: CommitOutcome) -> Outcome
    ensures { result ≡ with_slot d slot (on_commit d.tables o) }
{
    let answer = o.answer;
    let volumes = o.volumes;
    let entries = o.entries;
    let tokens = o.tokens;
    let relays = o.relays;
    let mut tables = d.tables;
    tables.volumes = volumes;
    tables.entries = entries;
    tables.tokens = tokens;
    tables.relays = relays;
    let session = o.session;
    let slots = d.sessions;
    let sessions = with_slot(slots, slot, session);
    let desk = Desk { tables, sessions };
    Outcome { answer, desk }
}
