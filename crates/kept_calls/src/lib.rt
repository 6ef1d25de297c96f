// The calls of a replay on tables that it keeps beside the others: delete and look, over kept tokens and kept entries. Each function says what it
// comes to on every table with the parts that it reads. Every public function answers for every input.
#![tactic(auto)]

mod delete;
mod look;

pub use delete::delete_kept;
use kept::KeptToken;
pub use look::look_kept;
use rules::{Answer, Volume};

// What delete leaves: the volume table and the kept tokens.
#[derive(Clone, Copy)]
pub struct KeptDelete {
    pub answer: Answer,
    pub volumes: [Volume; 8],
    pub tokens: [KeptToken; 32],
}
