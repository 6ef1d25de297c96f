// The answer of a commit that is refused: the tables and the session are left as they came.
ghost use Rattle.std.specs.Prelude.{◌≡◌};
ghost use Rattle.rules.specs.Numbers.{refusal_number};
ghost use Rattle.rules.specs.Outcome.{slot_refused};
ghost use Rattle.commits.specs.Parts.{on_commit};

use super::CommitOutcome;
use rules::{Refusal, Session, Tables};

pub(crate) fn refuse(t: Tables, s: Session, why: Refusal) -> CommitOutcome
    ensures { on_commit t result ≡ slot_refused t s (refusal_number why) }
{
    let answer = rules::refusal(why);
    let volumes = t.volumes;
    let entries = t.entries;
    let tokens = t.tokens;
    let relays = t.relays;
    CommitOutcome {
        answer,
        volumes,
        entries,
        tokens,
        relays,
        session: s,
    }
}
