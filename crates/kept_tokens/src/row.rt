// The row of a token, with its text read from the journal.
ghost use Rattle.std.specs.Prelude.{◌≡◌, cond, ◌<◌};
ghost use Rattle.lists.specs.Lists.{find, hit, miss};
ghost use Rattle.rules.specs.Tables.{is_token};
ghost use Rattle.kept_tokens.specs.KeptTokens.{tokens_in};

use super::KeptRow;
use super::find::find_kept;
use kept::{KeptToken, token_in};
use rules::{TokenNo, fresh_token};

// The row of the token n where there is one, and its place: 0 where there is none.
pub fn row_in(journal: &[u8], rows: [KeptToken; 32], n: TokenNo) -> KeptRow
    ensures { (find (is_token n) (tokens_in journal.now rows) ≡ cond result.there (hit result.at result.row) miss) × (result.at < 32) }
{
    let Some(at) = find_kept(rows, n) else {
        let row = fresh_token();
        return KeptRow {
            there: false,
            at: 0,
            row,
        };
    };
    let k = rows[at];
    let row = token_in(journal, k);
    KeptRow {
        there: true,
        at,
        row,
    }
}
