// The table of the tokens as a replay keeps it: searches of it, rows that go, and the calls on tokens. Each function says what it comes to for
// the tokens that the rows stand for. Every public function answers for every input.
#![tactic(auto)]

mod attenuate;
mod clear;
mod find;
mod grant;
mod revoke;
mod row;
mod store;

pub use attenuate::attenuate_kept;
pub use clear::{clear_gone, clear_kept, drop_kept};
pub use find::{find_kept, free_kept, kept_numbers, kept_parents};
pub use grant::grant_kept;
use kept::KeptToken;
pub use revoke::revoke_kept;
pub use row::row_in;
use rules::{Answer, Token};

// What a search of the table for a token gives: whether there is one, its place, and the token itself.
#[derive(Clone, Copy)]
pub struct KeptRow {
    pub there: bool,
    pub at: usize,
    pub row: Token,
}

// What a call on the tokens leaves: the kept table and the last number given.
#[derive(Clone, Copy)]
pub struct KeptTokens {
    pub answer: Answer,
    pub tokens: [KeptToken; 32],
    pub last: u32,
}
