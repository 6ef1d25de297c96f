// The kept rows of a fresh desk.
ghost use Rattle.std.specs.Prelude.{◌≡◌};
ghost use Rattle.replay_calls.specs.Held.{fresh_held};

use super::Held;
use kept::{fresh_kept_entry, fresh_kept_token};

pub fn fresh_held() -> Held
    ensures { result ≡ fresh_held }
{
    let token = fresh_kept_token();
    let entry = fresh_kept_entry();
    Held {
        tokens: [token; 32],
        entries: [entry; 64],
    }
}
