// The work of commit: a session's staged puts are stored. It reads the tables and the session, and gives back what it changes.
// Its two halves stand for themselves: the checks change no table, and the storing is for a commit that they do not refuse.
// Every public function answers for every input: past the limits that their sums rest on, the checks and the storing answer 1.
#![tactic(auto)]

mod answers;
mod charge;
mod checks;
mod commit;
mod family;
mod placings;
mod sizes;

pub use charge::{is_member, numbers_of};
pub use commit::{check_commit, check_given, commit_on, store_commit};
pub use family::{Family, family_of};
use rules::{Answer, Entry, Placement, Relay, Session, Token, Volume};

// What a commit leaves: the volume, entry, token and relay tables, and the session.
#[derive(Clone, Copy)]
pub struct CommitOutcome {
    pub answer: Answer,
    pub volumes: [Volume; 8],
    pub entries: [Entry; 64],
    pub tokens: [Token; 32],
    pub relays: [Relay; 32],
    pub session: Session,
}

// How a commit is stored: the rows of its volume and its token, a placement for each put, the relay table after them, and a mark for each
// entry that the puts replace.
#[derive(Clone, Copy)]
pub struct Plan {
    pub volume: usize,
    pub token: usize,
    pub places: [Placement; 8],
    pub relays: [Relay; 32],
    pub marks: [bool; 64],
}
