// Look, where the tokens and the entries are kept rows. Of each table the one row that it needs is read from the journal.
ghost use Rattle.std.specs.Prelude.{◌≡◌};
ghost use Rattle.lists.specs.Lists.{hit};
ghost use Rattle.rules.specs.declared.Tables.{Tables};
ghost use Rattle.rules.specs.TokenCalls.{look_in, look_rule};
ghost use Rattle.rows.specs.Links.{row_if};
ghost use Rattle.tokens.specs.Parts.{unchanged};
ghost use Rattle.tokens.specs.Rows.{look_found};
ghost use Rattle.kept_tokens.specs.KeptTokens.{tokens_in};
ghost use Rattle.kept_entries.specs.KeptEntries.{entries_in};

use kept::{KeptEntry, KeptToken, entry_in};
use kept_entries::find_kept_entry;
use kept_tokens::row_in;
use rules::{Answer, Refusal, Token, TokenNo, fresh_entry, refusal};
use text::path::is_path;
use tokens::look_token;

// In the table of the entries, from the token's row on.
fn look_in(journal: &[u8], clock: u64, entries: [KeptEntry; 64], k: Token, path: &[u8]) -> Answer
    ensures { (t : Tables) → t.clock ≡ clock → t.entries ≡ entries_in journal.now entries → unchanged t result ≡ look_in t path.now (hit 0 k) }
{
    let n = k.volume;
    let Some(i) = find_kept_entry(journal, &entries, n, path) else {
        let none = fresh_entry();
        return look_token(clock, k, false, none, path);
    };
    let e = entries[i];
    let row = entry_in(journal, e);
    look_token(clock, k, true, row, path)
}

// By the token's row, where there is one.
fn look_row(
    journal: &[u8],
    clock: u64,
    entries: [KeptEntry; 64],
    there: bool,
    k: Token,
    path: &[u8],
) -> Answer
    ensures { (t : Tables) → t.clock ≡ clock → t.entries ≡ entries_in journal.now entries → unchanged t result ≡ look_found t path.now (row_if there k) }
{
    if !is_path(path) {
        return refusal(Refusal::Bad);
    }
    if !there {
        return refusal(Refusal::NoToken);
    }
    look_in(journal, clock, entries, k, path)
}

// The size and the hash of the object at the path, by the token n.
pub fn look_kept(
    journal: &[u8],
    clock: u64,
    tokens: [KeptToken; 32],
    entries: [KeptEntry; 64],
    n: TokenNo,
    path: &[u8],
) -> Answer
    ensures { (t : Tables) → t.clock ≡ clock → t.tokens ≡ tokens_in journal.now tokens → t.entries ≡ entries_in journal.now entries → unchanged t result ≡ look_rule n path.now t }
{
    let x = row_in(journal, tokens, n);
    let k = x.row;
    look_row(journal, clock, entries, x.there, k, path)
}
