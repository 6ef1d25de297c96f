// Advance: the clock goes on and rents are paid, then volumes are collected.
ghost use Rattle.replay_calls.specs.Held.{ListsOf, PassDone, CollectDone};

use super::{EntryLists, Held};
use epochs::{PassOutcome, pass_rows};
use kept::KeptEntry;
use kept_entries::{kept_sizes, kept_volumes};
use kept_epochs::{KeptCollect, collect_kept};
use rules::{Relay, Tables};

fn entry_lists(rows: [KeptEntry; 64]) -> EntryLists
    ensures { ListsOf rows result }
{
    let owners = kept_volumes(rows);
    let sizes = kept_sizes(rows);
    EntryLists { owners, sizes }
}

pub fn pass_call(t: Tables, h: Held, relays: [Relay; 32], block: u64) -> PassOutcome
    ensures { PassDone t h relays block result }
{
    let entries = h.entries;
    let x = entry_lists(entries);
    let owners = x.owners;
    let sizes = x.sizes;
    let volumes = t.volumes;
    pass_rows(t.clock, t.rate, volumes, relays, owners, sizes, block)
}

pub fn collect_call(t: Tables, h: Held, relays: [Relay; 32], block: u64) -> KeptCollect
    ensures { CollectDone t h relays block result }
{
    let volumes = t.volumes;
    let entries = h.entries;
    let tokens = h.tokens;
    collect_kept(volumes, entries, tokens, relays, block)
}
