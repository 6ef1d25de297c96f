// The work of open, stage and abandon on a session as a replay keeps it. Each takes only what it reads of the tables, and in place of a token's number
// its row, or that there is none. A path is a place in the journal. Every public function answers for every input.
#![tactic(auto)]

mod abandon;
mod answers;
mod open;
mod stage;

pub use abandon::abandon_kept;
use kept::KeptSession;
pub use open::open_kept;
use rules::Answer;
pub use stage::stage_kept;

// What a call on a slot leaves: the slot's session.
#[derive(Clone, Copy)]
pub struct KeptOutcome {
    pub answer: Answer,
    pub session: KeptSession,
}
