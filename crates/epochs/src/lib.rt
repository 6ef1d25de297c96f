// The work of advance: the clock goes on, relays leave, rents are paid at an epoch end, and volumes are collected. It reads the
// tables and gives back the parts that it changes, with its answer: specs/Parts.antt says what that makes of the whole. `advance_on` does
// all of it, and `pass_on` and `collect_on` are its two parts; `pass_rows` is `pass_on` without the whole tables. It answers for every input.
#![tactic(auto)]

mod advance;
mod clock;
mod collect;
mod due;
mod leave;
mod paying;
mod settle;

pub use advance::{advance_on, pass_on, pass_rows};
pub use collect::collect_on;
pub use due::{clear_due, due_numbers, is_one_of};
use rules::{Answer, Entry, Relay, Token, Volume};

// What an advance leaves.
#[derive(Clone, Copy)]
pub struct AdvanceOutcome {
    pub answer: Answer,
    pub clock: u64,
    pub volumes: [Volume; 8],
    pub entries: [Entry; 64],
    pub tokens: [Token; 32],
    pub relays: [Relay; 32],
}

// What an advance leaves before volumes are collected: the clock, the volumes and the relays, and whether some volume is due.
#[derive(Clone, Copy)]
pub struct PassOutcome {
    pub answer: Answer,
    pub clock: u64,
    pub volumes: [Volume; 8],
    pub relays: [Relay; 32],
    pub due: bool,
}

// What a collection leaves.
#[derive(Clone, Copy)]
pub struct CollectOutcome {
    pub volumes: [Volume; 8],
    pub entries: [Entry; 64],
    pub tokens: [Token; 32],
    pub relays: [Relay; 32],
}
