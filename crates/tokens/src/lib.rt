// The work of the calls on tokens: grant, attenuate, revoke and look. `grant_on` and the like read the tables and give back what they
// change of them: the token table and the last number given. `look_on` changes nothing and gives back its answer. Each is made of a
// function of this crate, `grant_row` and the like, that takes only what it reads of the tables, since these would be copied, and in
// place of a token's number its row, or that there is none. These serve a table that is kept in another form too: they say which row is
// new, with its prefix, or which rows go. Every public function answers for every input.
#![tactic(auto)]

mod answers;
mod attenuate;
mod grant;
mod look;
mod new_tokens;
mod revoke;
mod scope;

pub use attenuate::{attenuate_on, attenuate_row};
pub use grant::{grant_on, grant_row};
pub use look::{look_on, look_token};
pub use new_tokens::{is_found, place_of};
pub use revoke::{revoke_on, revoke_row};
use rules::{Answer, Token};

// What a call on the tokens leaves: the token table and the last number given.
#[derive(Clone, Copy)]
pub struct TokensOutcome {
    pub answer: Answer,
    pub tokens: [Token; 32],
    pub last: u32,
}

// What a call that makes a token gives: its answer, and the new row where one is stored.
#[derive(Clone, Copy)]
pub struct NewToken {
    pub answer: Answer,
    pub stored: bool,
    pub token: Token,
}

// What revoke gives: its answer, and the rows that go, one bit for each, the first row's lowest.
#[derive(Clone, Copy)]
pub struct Dropped {
    pub answer: Answer,
    pub set: u32,
}
