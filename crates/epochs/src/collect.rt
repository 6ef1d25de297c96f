// Volumes are collected: their entries, tokens and rows go.
ghost use Rattle.std.specs.Prelude.{◌≡◌, ◌&&◌, map};
ghost use Rattle.lists.specs.Lists.{any_of};
ghost use Rattle.rules.specs.Fresh.{fresh_token};
ghost use Rattle.rules.specs.Tables.{given, numbered, cleared, with_volumes, with_relays};
ghost use Rattle.rules.specs.Advance.{is_due, collect};
ghost use Rattle.epochs.specs.Parts.{on_collect};
ghost use Rattle.epochs.specs.Gone.{entry_gone, token_gone};

use super::CollectOutcome;
use super::due::{clear_due, due_numbers, is_one_of};
use entries::{clear_marked, give_back};
use rules::{Entry, Relay, Tables, Token, Volume};

// A mark for each entry: whether its volume is one of these.
fn mark_gone(entries: [Entry; 64], gone: [u32; 8]) -> [bool; 64]
    ensures { result ≡ map (entry_gone gone) entries }
{
    let mut marks = [false; 64];
    for i in 0..64 {
        marks[i] = is_one_of(gone, entries[i].volume.0);
    }
    marks
}

// Whether a token of this number and volume is one of these volumes'.
fn is_token_gone(gone: [u32; 8], no: u32, volume: u32) -> bool
    ensures { result ≡ (given no && any_of (numbered volume) gone) }
{
    no != 0 && is_one_of(gone, volume)
}

// The tokens without those of these volumes.
fn clear_tokens(rows: [Token; 32], gone: [u32; 8]) -> [Token; 32]
    ensures { result ≡ cleared (token_gone gone) fresh_token rows }
{
    let mut left = rows;
    for i in 0..32 {
        if is_token_gone(gone, rows[i].no.0, rows[i].volume.0) {
            left[i] = rules::fresh_token();
        }
    }
    left
}

// The volumes that are due go, from tables with these volumes and relays.
pub(crate) fn collect_due(
    t: Tables,
    block: u64,
    volumes: [Volume; 8],
    relays: [Relay; 32],
) -> CollectOutcome
    ensures { on_collect t result ≡ collect (is_due block) (with_relays (with_volumes t volumes) relays) }
{
    let gone = due_numbers(block, volumes);
    let marks = mark_gone(t.entries, gone);
    let rows = give_back(volumes, t.entries, marks, relays);
    CollectOutcome {
        volumes: clear_due(block, volumes),
        entries: clear_marked(t.entries, marks),
        tokens: clear_tokens(t.tokens, gone),
        relays: rows,
    }
}

// The volumes that are due at the block go, with their entries and tokens, and the room is given back.
pub fn collect_on(t: Tables, block: u64) -> CollectOutcome
    ensures { on_collect t result ≡ collect (is_due block) t }
{
    collect_due(t, block, t.volumes, t.relays)
}
