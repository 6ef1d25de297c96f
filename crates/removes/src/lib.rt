// The work of remove: an entry goes out of the table, its room goes back to its relays, and the volume has a new version.
#![tactic(auto)]

mod remove;

pub use remove::{remove_on, with_version};
use rules::{Answer, Entry, Relay, Volume};

// What a remove leaves: the volume, entry and relay tables.
#[derive(Clone, Copy)]
pub struct RemoveOutcome {
    pub answer: Answer,
    pub volumes: [Volume; 8],
    pub entries: [Entry; 64],
    pub relays: [Relay; 32],
}
