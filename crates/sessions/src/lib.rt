// The work of open, stage and abandon, each on the tables and one slot. The tables are only read: a call gives back the
// slot's session, with its answer. Each is made of a function of this crate, `X_row`, that takes only what the call reads
// of the tables, since these would be copied: open the clock, the volumes and the row of its token, if there is one, stage
// the row of its session's token, if there is one, abandon nothing.
// Every public function answers for every input.
#![tactic(auto)]

mod abandon;
mod answers;
mod open;
mod stage;

pub use abandon::abandon_on;
pub use open::open_on;
use rules::{Answer, Session};
pub use stage::stage_on;

// What a call on a slot leaves: the slot's session.
#[derive(Clone, Copy)]
pub struct SessionOutcome {
    pub answer: Answer,
    pub session: Session,
}
