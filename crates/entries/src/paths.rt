// Paths that are texts, of an entry or of a put.
ghost use Rattle.std.specs.Prelude.{◌≡◌, length, take};
ghost use Rattle.lists.specs.Lists.{any_of};
ghost use Rattle.text.specs.Text.{text_bytes, to_text};
ghost use Rattle.rules.specs.Tables.{is_put};

use rows::find_put;
use rules::Put;
use text::Text;

// How many bytes the text has.
pub(crate) fn text_len(t: Text) -> usize
    ensures { result ≡ length (text_bytes t) }
{
    t.as_bytes().len()
}

// The text written anew, padded with zeros.
pub(crate) fn write_anew(t: Text) -> Text
    ensures { result ≡ to_text (text_bytes t) }
{
    Text::truncated(t.as_bytes())
}

// Whether one of the first `count` puts is staged at the path.
pub(crate) fn is_staged(puts: [Put; 8], count: usize, path: Text) -> bool
    ensures { result ≡ any_of (is_put (text_bytes path)) (take count puts) }
{
    let Some(_) = find_put(&puts, count, path.as_bytes()) else {
        return false;
    };
    true
}
