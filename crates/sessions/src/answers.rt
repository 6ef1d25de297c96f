// The answers of open, stage and abandon: a refusal, which leaves the session as it came, and success, of value 0. The
// contracts say what the outcome makes of any tables.
ghost use Rattle.std.specs.Prelude.{◌≡◌};
ghost use Rattle.rules.specs.Numbers.{refusal_number};
ghost use Rattle.rules.specs.declared.Tables.{Tables};
ghost use Rattle.rules.specs.Outcome.{slot_refused, slot_accepted};
ghost use Rattle.sessions.specs.Parts.{on_session};

use super::SessionOutcome;
use rules::{Refusal, Session};

pub(crate) fn refuse(s: Session, n: Refusal) -> SessionOutcome
    ensures { (t : Tables) → on_session t result ≡ slot_refused t s (refusal_number n) }
{
    let answer = rules::refusal(n);
    SessionOutcome { answer, session: s }
}

pub(crate) fn accept(s: Session) -> SessionOutcome
    ensures { (t : Tables) → on_session t result ≡ slot_accepted 0 t s }
{
    let answer = rules::success(0);
    SessionOutcome { answer, session: s }
}
