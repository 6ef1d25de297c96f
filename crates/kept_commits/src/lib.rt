// A commit over the tables as a replay keeps them: its checks, then its storing. Only the rows that it needs are read from the journal. Every public
// function answers for every input.
#![tactic(auto)]

mod charge;
mod family;
mod store;
mod verdict;
mod within;

pub use family::kept_family;
use kept::{KeptEntry, KeptSession, KeptToken};
use rules::{Answer, Relay, Volume};
pub use store::store_kept_commit;
pub use verdict::kept_verdict;
pub use within::kept_within;

// What a commit leaves: the volume, entry, token and relay tables, and the session.
#[derive(Clone, Copy)]
pub struct KeptCommit {
    pub answer: Answer,
    pub volumes: [Volume; 8],
    pub entries: [KeptEntry; 64],
    pub tokens: [KeptToken; 32],
    pub relays: [Relay; 32],
    pub session: KeptSession,
}
