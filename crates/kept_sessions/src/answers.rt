// The answers of open, stage and abandon: a refusal, which leaves the session as it came, and success, of value 0. The contracts say what the outcome
// makes of any tables, whatever the journal is.
ghost use Rattle.std.specs.Prelude.{◌≡◌, List, ℕ};
ghost use Rattle.rules.specs.Numbers.{refusal_number};
ghost use Rattle.rules.specs.declared.Tables.{Tables};
ghost use Rattle.rules.specs.Outcome.{slot_refused, slot_accepted};
ghost use Rattle.kept.specs.Kept.{session_in};
ghost use Rattle.kept_sessions.specs.Parts.{on_kept_session};

use super::KeptOutcome;
use kept::KeptSession;
use rules::Refusal;

pub(crate) fn refuse(s: KeptSession, n: Refusal) -> KeptOutcome
    ensures { (j : List ℕ) (t : Tables) → on_kept_session j t result ≡ slot_refused t (session_in j s) (refusal_number n) }
{
    let answer = rules::refusal(n);
    KeptOutcome { answer, session: s }
}

pub(crate) fn accept(s: KeptSession) -> KeptOutcome
    ensures { (j : List ℕ) (t : Tables) → on_kept_session j t result ≡ slot_accepted 0 t (session_in j s) }
{
    let answer = rules::success(0);
    KeptOutcome { answer, session: s }
}
