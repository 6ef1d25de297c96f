// The calls on the tokens. The record begins at `from`.
ghost use Rattle.journal_calls.specs.NextLaws.{body_at};
ghost use Rattle.replay_calls.specs.Held.{TokensDone};

use super::Held;
use journal::account_of;
use journal_calls::{Item, TokenCall, body_at, text_place};
use kept_tokens::{KeptTokens, attenuate_kept, grant_kept, revoke_kept};
use rules::{Tables, TokenNo, VolumeNo};

pub fn token_call(
    journal: &[u8],
    from: usize,
    t: Tables,
    h: Held,
    which: TokenCall,
    item: Item,
) -> KeptTokens
    ensures { TokensDone journal.now t h which item.fields (body_at from item.after journal.now) result }
{
    let r = item.fields;
    let mode = r.mode;
    let cap = r.cap;
    let body = body_at(journal, from, item.after);
    let a = account_of(body, r);
    let x = text_place(journal, from, item);
    let volumes = t.volumes;
    let rows = h.tokens;
    let last = t.last_token;
    match which {
        TokenCall::Grant => grant_kept(
            journal,
            volumes,
            rows,
            last,
            a,
            VolumeNo(r.no),
            x.at,
            x.len,
            mode,
            cap,
            r.from,
            r.until,
        ),
        TokenCall::Attenuate => attenuate_kept(
            journal,
            rows,
            last,
            TokenNo(r.no),
            x.at,
            x.len,
            mode,
            cap,
            r.from,
            r.until,
        ),
        TokenCall::Revoke => revoke_kept(journal, volumes, rows, last, a, TokenNo(r.no)),
    }
}
