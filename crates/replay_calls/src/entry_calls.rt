// Look and remove. The record begins at `from`.
ghost use Rattle.journal_calls.specs.NextLaws.{body_at};
ghost use Rattle.replay_calls.specs.Held.{LookDone, RemoveDone};

use super::Held;
use journal::{account_of, text_of};
use journal_calls::{Item, body_at};
use kept_calls::look_kept;
use kept_removes::{KeptRemove, remove_kept};
use rules::{Answer, Relay, Tables, TokenNo, VolumeNo};

pub fn look_call(journal: &[u8], from: usize, t: Tables, h: Held, item: Item) -> Answer
    ensures { LookDone journal.now t h item.fields (body_at from item.after journal.now) result }
{
    let r = item.fields;
    let body = body_at(journal, from, item.after);
    let path = text_of(body, r);
    let tokens = h.tokens;
    let entries = h.entries;
    look_kept(journal, t.clock, tokens, entries, TokenNo(r.no), path)
}

pub fn remove_call(
    journal: &[u8],
    from: usize,
    t: Tables,
    h: Held,
    relays: [Relay; 32],
    item: Item,
) -> KeptRemove
    ensures { RemoveDone journal.now t h relays item.fields (body_at from item.after journal.now) result }
{
    let r = item.fields;
    let body = body_at(journal, from, item.after);
    let a = account_of(body, r);
    let path = text_of(body, r);
    let volumes = t.volumes;
    let entries = h.entries;
    remove_kept(journal, volumes, entries, relays, a, VolumeNo(r.no), path)
}
