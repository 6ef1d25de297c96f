// Abandon.
ghost use Rattle.std.specs.Prelude.{◌≡◌};
ghost use Rattle.rules.specs.declared.Tables.{Tables};
ghost use Rattle.rules.specs.SessionCalls.{abandon_rule};
ghost use Rattle.sessions.specs.Parts.{on_session};

use super::SessionOutcome;
use super::answers::{accept, refuse};
use rules::{Refusal, Session, Tables};

// A session ends with nothing stored, whatever the tables are.
pub(crate) fn abandon_row(s: Session) -> SessionOutcome
    ensures { (t : Tables) → on_session t result ≡ abandon_rule t s }
{
    if s.token.0 == 0 {
        return refuse(s, Refusal::Session);
    }
    let idle = rules::fresh_session();
    accept(idle)
}

// A session ends with nothing stored.
pub fn abandon_on(t: Tables, s: Session) -> SessionOutcome
    ensures { on_session t result ≡ abandon_rule t s }
{
    abandon_row(s)
}
