// The rows of the desk as a replay keeps them. A text is kept as the place in the journal where its bytes stand: a row is then a few numbers, and
// costs little to hand on. For each row there is the row of the desk that it stands for, by the journal's bytes.
#![tactic(auto)]

mod decode;
mod fresh;

use amount::Cap;
pub use decode::{
    bytes_in, entries_in, entry_in, kept_slot, put_in, session_in, slots_in, text_bytes_in,
    text_in, token_in, tokens_in,
};
pub use fresh::{fresh_kept_entry, fresh_kept_put, fresh_kept_session, fresh_kept_token};
use rules::{Hash, Mode, Placement, TokenNo, VolumeNo};

// A token, whose prefix is the `len` bytes of the journal from `at` on.
#[derive(Clone, Copy)]
pub struct KeptToken {
    pub no: TokenNo,
    pub volume: VolumeNo,
    pub parent: TokenNo,
    pub at: usize,
    pub len: usize,
    pub mode: Mode,
    pub cap: Cap,
    pub from: u64,
    pub until: u64,
    pub used: u64,
}

// An entry, whose path stands there.
#[derive(Clone, Copy)]
pub struct KeptEntry {
    pub volume: VolumeNo,
    pub at: usize,
    pub len: usize,
    pub size: u64,
    pub hash: Hash,
    pub placement: Placement,
}

// A staged object, whose path stands there.
#[derive(Clone, Copy)]
pub struct KeptPut {
    pub at: usize,
    pub len: usize,
    pub size: u64,
    pub hash: Hash,
}

// A session slot. `token` 0 marks an idle one. The staged puts are the first `count`.
#[derive(Clone, Copy)]
pub struct KeptSession {
    pub token: TokenNo,
    pub volume: VolumeNo,
    pub version: u32,
    pub count: usize,
    pub puts: [KeptPut; 8],
}
