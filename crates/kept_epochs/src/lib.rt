// Volumes are collected from tables whose entries and tokens are kept as a replay keeps them: a text is a place in the journal, and none is read.
// specs/Parts.antt says what the kept tables make of the whole.
#![tactic(auto)]

mod collect;

pub use collect::collect_kept;
use kept::{KeptEntry, KeptToken};
use rules::{Relay, Volume};

// What a collection leaves.
#[derive(Clone, Copy)]
pub struct KeptCollect {
    pub volumes: [Volume; 8],
    pub entries: [KeptEntry; 64],
    pub tokens: [KeptToken; 32],
    pub relays: [Relay; 32],
}
