// The calls of a journal's records on the tables as a replay keeps them: the tokens and the entries as kept rows, beside tables whose tokens, entries and
// relays are not read.
#![tactic(auto)]

mod advances;
mod commit_calls;
mod entry_calls;
mod fresh;
mod slots;
mod token_calls;
mod volume_calls;

pub use advances::{collect_call, pass_call};
pub use commit_calls::commit_call;
pub use entry_calls::{look_call, remove_call};
pub use fresh::fresh_held;
use kept::{KeptEntry, KeptToken};
pub use slots::slot_call;
pub use token_calls::token_call;
pub use volume_calls::{delete_call, volume_call};

// The kept rows of a replay.
#[derive(Clone, Copy)]
pub struct Held {
    pub tokens: [KeptToken; 32],
    pub entries: [KeptEntry; 64],
}

// The volumes and the sizes of the entries, row by row.
#[derive(Clone, Copy)]
pub struct EntryLists {
    pub owners: [u32; 64],
    pub sizes: [u64; 64],
}
