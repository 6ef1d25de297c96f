// Volumes are collected: their kept entries and tokens and their rows go.
ghost use Rattle.std.specs.Prelude.{◌≡◌, List, map, ℕ};
ghost use Rattle.rules.specs.declared.Tables.{Tables};
ghost use Rattle.rules.specs.Advance.{is_due, collect};
ghost use Rattle.kept_entries.specs.KeptEntries.{entries_in};
ghost use Rattle.kept_tokens.specs.KeptTokens.{tokens_in};
ghost use Rattle.kept_epochs.specs.Parts.{kept_gone, on_kept_collect};

use super::KeptCollect;
use epochs::{clear_due, due_numbers, is_one_of};
use kept::{KeptEntry, KeptToken};
use kept_entries::{clear_kept_entries, give_kept_back};
use kept_tokens::clear_gone;
use rules::{Relay, Volume};

// A mark for each entry: whether its volume is one of these.
fn mark_kept_gone(entries: [KeptEntry; 64], gone: [u32; 8]) -> [bool; 64]
    ensures { result ≡ map (kept_gone gone) entries }
{
    let mut marks = [false; 64];
    for i in 0..64 {
        marks[i] = is_one_of(gone, entries[i].volume.0);
    }
    marks
}

// The volumes that are due at the block go, with their entries and tokens, and the room is given back.
pub fn collect_kept(
    volumes: [Volume; 8],
    entries: [KeptEntry; 64],
    tokens: [KeptToken; 32],
    relays: [Relay; 32],
    block: u64,
) -> KeptCollect
    ensures { (j : List ℕ) (t : Tables) → t.volumes ≡ volumes → t.entries ≡ entries_in j entries → t.tokens ≡ tokens_in j tokens → t.relays ≡ relays → on_kept_collect j t result ≡ collect (is_due block) t }
{
    let gone = due_numbers(block, volumes);
    let marks = mark_kept_gone(entries, gone);
    let rows = give_kept_back(volumes, entries, marks, relays);
    let left = clear_kept_entries(entries, marks);
    let rest = clear_gone(tokens, gone);
    let kept = clear_due(block, volumes);
    KeptCollect {
        volumes: kept,
        entries: left,
        tokens: rest,
        relays: rows,
    }
}
