// The work of create, deposit, delete and undelete. Each reads the tables and gives back the part that it changes, with its
// answer: specs/Parts.antt says what that makes of the whole. Every public function answers for every input.
#![tactic(auto)]

mod answers;
mod create;
mod delete;
mod deposit;
mod status;
mod undelete;

pub use create::create_on;
pub use delete::delete_on;
pub use deposit::deposit_on;
use rules::{Answer, Token, Volume};
pub use status::with_status;
pub use undelete::undelete_on;

// What create, deposit and undelete leave: the volume table, the last volume number given, and the coins of all deposits
// ever.
#[derive(Clone, Copy)]
pub struct VolumesOutcome {
    pub answer: Answer,
    pub volumes: [Volume; 8],
    pub last: u32,
    pub deposits: u64,
}

// What delete leaves: the volume table and the token table.
#[derive(Clone, Copy)]
pub struct DeleteOutcome {
    pub answer: Answer,
    pub volumes: [Volume; 8],
    pub tokens: [Token; 32],
}
