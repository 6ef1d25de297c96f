// Look: the size of the object at a path, and its hash. It changes nothing.
ghost use Rattle.std.specs.Prelude.{◌≡◌, cond, ℕ};
ghost use Rattle.lists.specs.Lists.{hit, miss};
ghost use Rattle.rules.specs.declared.Tables.{Tables};
ghost use Rattle.rules.specs.Tables.{entry_of};
ghost use Rattle.rules.specs.TokenCalls.{look_rule, look_in, look_entry};
ghost use Rattle.tokens.specs.Parts.{unchanged};
ghost use Rattle.rows.specs.Links.{row_if};
ghost use Rattle.tokens.specs.Rows.{look_found};

use super::new_tokens::{is_found, place_of};
use rows::{can_read, find_row, in_window, is_entry};
use rules::{Answer, Entry, Refusal, Tables, Token, TokenNo, fresh_entry, refusal, success_with};
use text::path::is_path;

// The entry's size, and its hash handed back.
fn look_entry(found: bool, e: Entry) -> Answer
    ensures { (t : Tables) (j : ℕ) → unchanged t result ≡ look_entry t (cond found (hit j e) miss) }
{
    if !found {
        return refusal(Refusal::NoEntry);
    }
    let hash = e.hash;
    success_with(e.size, hash)
}

// From the token's row on.
pub fn look_token(clock: u64, k: Token, found: bool, e: Entry, path: &[u8]) -> Answer
    ensures { (t : Tables) (j : ℕ) → t.clock ≡ clock → entry_of k.volume path.now t ≡ cond found (hit j e) miss → unchanged t result ≡ look_in t path.now (hit 0 k) }
{
    let scope = k.scope;
    if !in_window(clock, &scope) {
        return refusal(Refusal::Window);
    }
    let mode = scope.mode;
    if !can_read(mode) {
        return refusal(Refusal::Mode);
    }
    let prefix = scope.prefix;
    if !prefix.covers(path) {
        return refusal(Refusal::Prefix);
    }
    look_entry(found, e)
}

// In the table of the entries, from the token's row on. A row of another volume is not copied.
pub(crate) fn look_in(clock: u64, k: Token, entries: [Entry; 64], path: &[u8]) -> Answer
    ensures { (t : Tables) → t.clock ≡ clock → t.entries ≡ entries → unchanged t result ≡ look_in t path.now (hit 0 k) }
{
    let n = k.volume;
    for i in 0..64 {
        if entries[i].volume.0 == n.0 {
            let e = entries[i];
            if is_entry(&e, n, path) {
                return look_token(clock, k, true, e, path);
            }
        }
    }
    let none = fresh_entry();
    look_token(clock, k, false, none, path)
}

// The same as `look_on`, of the clock, a table of entries, and the token's row where there is one.
pub(crate) fn look_row(
    clock: u64,
    entries: [Entry; 64],
    there: bool,
    k: Token,
    path: &[u8],
) -> Answer
    ensures { (t : Tables) → t.clock ≡ clock → t.entries ≡ entries → unchanged t result ≡ look_found t path.now (row_if there k) }
{
    if !is_path(path) {
        return refusal(Refusal::Bad);
    }
    if !there {
        return refusal(Refusal::NoToken);
    }
    look_in(clock, k, entries, path)
}

// The size and the hash of the object at the path, by the token n.
pub fn look_on(t: Tables, n: TokenNo, path: &[u8]) -> Answer
    ensures { unchanged t result ≡ look_rule n path.now t }
{
    let rows = t.tokens;
    let f = find_row(&rows, n);
    let there = is_found(f);
    let i = place_of(f);
    let k = rows[i];
    let entries = t.entries;
    look_row(t.clock, entries, there, k, path)
}
