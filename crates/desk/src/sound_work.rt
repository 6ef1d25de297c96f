// The work of advance and commit on a sound desk, where it is exactly the rule: every sum fits the machine's numbers.
ghost use Rattle.std.specs.Prelude.{◌≡◌, true};
ghost use Rattle.rules.specs.Sound.{sound_tables, sound_session};
ghost use Rattle.rules.specs.Advance.{advance_rule};
ghost use Rattle.rules.specs.Commit.{commit_rule};
ghost use Rattle.commits.specs.Parts.{on_commit};
ghost use Rattle.epochs.specs.Parts.{on_advance};

use commits::CommitOutcome;
use epochs::AdvanceOutcome;
use rules::{Session, Tables};

pub(crate) fn advance_when_sound(t: Tables, block: u64) -> AdvanceOutcome
    requires { sound_tables t ≡ true }
    ensures { on_advance t result ≡ advance_rule block t }
{
    epochs::advance_on(t, block)
}

pub(crate) fn commit_when_sound(t: Tables, s: Session) -> CommitOutcome
    requires { (sound_tables t ≡ true) × (sound_session t s ≡ true) }
    ensures { on_commit t result ≡ commit_rule t s }
{
    commits::commit_on(t, s)
}
