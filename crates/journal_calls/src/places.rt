// Where the text of a record stands in the journal.
ghost use Rattle.std.specs.Prelude.{◌≡◌, cond, length};
ghost use Rattle.journal.specs.Places.{text_at};
ghost use Rattle.kept.specs.Kept.{bytes_in};
ghost use Rattle.journal_calls.specs.NextLaws.{body_at};
ghost use Rattle.journal_calls.specs.Places.{place_in};

use super::items::body_at;
use super::{Item, TextPlace};
use journal::text_of;

// The place of a byte of a record that begins at `from`, after the record's length: 0 where it is past the end of the journal.
fn place_in(journal: &[u8], from: usize, byte: usize) -> usize
    ensures { result ≡ place_in (length journal.now) from byte }
{
    let n = journal.len();
    if n < from {
        return 0;
    }
    if n - from < 2 {
        return 0;
    }
    let start = from + 2;
    if n - start < byte {
        return 0;
    }
    start + byte
}

// The text of the record that begins at `from`.
pub fn text_place(journal: &[u8], from: usize, item: Item) -> TextPlace
    ensures { bytes_in journal.now result.at result.len ≡ text_at item.fields (body_at from item.after journal.now) }
{
    let r = item.fields;
    let body = body_at(journal, from, item.after);
    let at = place_in(journal, from, r.text);
    let text = text_of(body, r);
    let len = text.len();
    TextPlace { at, len }
}
