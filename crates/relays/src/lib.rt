// The work of register and heartbeat. Each has two forms. `register_on` and `heartbeat_on` read the tables and give back the
// part that they change, with the answer: specs/Parts.antt says what that makes of the whole. `register_row` and `heartbeat_row`
// take only what they read, and give back the one row that is changed: specs/Rows.antt. Every public function answers for every input.
#![tactic(auto)]

mod answers;
mod heartbeat;
mod register;

pub use heartbeat::{heartbeat_on, heartbeat_row};
pub use register::{register_on, register_row};
use rules::{Answer, Relay};

// What a call on the relays leaves: the relay table, and the last relay number given.
#[derive(Clone, Copy)]
pub struct RelaysOutcome {
    pub answer: Answer,
    pub relays: [Relay; 32],
    pub last: u32,
}

// What a call on the relays gives: its answer, and, where `changed`, the row that is stored at `at`, and the last relay number
// given. A refusal changes nothing.
#[derive(Clone, Copy)]
pub struct RelayChange {
    pub answer: Answer,
    pub changed: bool,
    pub at: usize,
    pub row: Relay,
    pub last: u32,
}
