// Remove, from entries that are kept as a replay keeps them: a path is compared in the journal itself, and no text is made. specs/Parts.antt says
// what the kept tables make of the whole.
#![tactic(auto)]

mod remove;

use kept::KeptEntry;
pub use remove::remove_kept;
use rules::{Answer, Relay, Volume};

// What a remove leaves: the volume, entry and relay tables.
#[derive(Clone, Copy)]
pub struct KeptRemove {
    pub answer: Answer,
    pub volumes: [Volume; 8],
    pub entries: [KeptEntry; 64],
    pub relays: [Relay; 32],
}
