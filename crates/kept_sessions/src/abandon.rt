// Abandon.
ghost use Rattle.std.specs.Prelude.{◌≡◌, List, ℕ};
ghost use Rattle.rules.specs.declared.Tables.{Tables};
ghost use Rattle.rules.specs.SessionCalls.{abandon_rule};
ghost use Rattle.kept.specs.Kept.{session_in};
ghost use Rattle.kept_sessions.specs.Parts.{on_kept_session};

use super::KeptOutcome;
use super::answers::{accept, refuse};
use kept::KeptSession;
use rules::Refusal;

// A session ends with nothing stored, whatever the tables are.
pub fn abandon_kept(s: KeptSession) -> KeptOutcome
    ensures { (j : List ℕ) (t : Tables) → on_kept_session j t result ≡ abandon_rule t (session_in j s) }
{
    if s.token.0 == 0 {
        return refuse(s, Refusal::Session);
    }
    let idle = kept::fresh_kept_session();
    accept(idle)
}
