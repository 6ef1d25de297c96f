// Create, deposit, undelete and delete. The record begins at `from`.
ghost use Rattle.journal_calls.specs.NextLaws.{body_at};
ghost use Rattle.replay_calls.specs.Held.{VolumesDone, DeleteDone};

use super::Held;
use journal::account_of;
use journal_calls::{Item, VolumeCall, body_at};
use kept_calls::{KeptDelete, delete_kept};
use rules::{Tables, VolumeNo};
use volumes::VolumesOutcome;

pub fn volume_call(
    journal: &[u8],
    from: usize,
    t: Tables,
    which: VolumeCall,
    item: Item,
) -> VolumesOutcome
    ensures { VolumesDone journal.now t which item.fields (body_at from item.after journal.now) result }
{
    let body = body_at(journal, from, item.after);
    journal_calls::volume_call(t, which, item, body)
}

pub fn delete_call(journal: &[u8], from: usize, t: Tables, h: Held, item: Item) -> KeptDelete
    ensures { DeleteDone journal.now t h item.fields (body_at from item.after journal.now) result }
{
    let r = item.fields;
    let body = body_at(journal, from, item.after);
    let a = account_of(body, r);
    let volumes = t.volumes;
    let tokens = h.tokens;
    delete_kept(t.clock, volumes, tokens, a, VolumeNo(r.no))
}
