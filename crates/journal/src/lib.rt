// The journal of document 01: records read, and what their reader and their writer (the crate journal_writer) share.
//
// A record is a kind and the kind's list of fields. One table gives the lists; the reader and the writer go by it, so no
// kind has code of its own. The definitions are in specs/: Numbers and Fields (the parts of a record), Records (the table
// and the calls it stands for), Places (what the reader answers), Journal (the frame). Theorems, in proofs/, has what is proved of them.
#![tactic(auto)]

mod errors;
mod frame;
mod numbers;
mod parts;
mod reader;
mod records;
mod table;
mod versions;

use amount::Cap;
pub use errors::{JournalError, WriteError};
pub use frame::{next_record, start_of};
pub use parts::{account_of, hash_of, text_of};
pub use records::read_record;
use rules::Mode;

// The versions of a journal. They say which kinds of records it has, how the length of a text is written, and
// how long a text may be.
#[derive(Clone, Copy)]
pub enum Version {
    V01,
    V02,
}

// The kinds of calls, 01 to 10 in the journal, in that order.
#[derive(Clone, Copy)]
pub enum Kind {
    Advance,
    Create,
    Deposit,
    Delete,
    Undelete,
    Grant,
    Attenuate,
    Revoke,
    Open,
    Stage,
    Commit,
    Abandon,
    Remove,
    Look,
    Register,
    Heartbeat,
}

// The fields of records. `No` is a volume, token or relay number, `Text` a name, path or prefix, `Amount` a block, coins, a
// size or a capacity.
#[derive(Clone, Copy)]
pub enum Field {
    Account,
    No,
    Slot,
    K,
    M,
    Text,
    Amount,
    Hash,
    Mode,
    Cap,
    From,
    Until,
}

// A record that was read. Numbers are by value; of the account, the text and the hash it says where in the record's bytes
// they begin. A field that the kind does not have is 0, the mode Read and the cap unlimited.
#[derive(Clone, Copy)]
pub struct Record {
    pub kind: Kind,
    pub account: usize,
    pub no: u32,
    pub slot: u8,
    pub k: u8,
    pub m: u8,
    pub text: usize,
    pub text_len: usize,
    pub amount: u64,
    pub hash: usize,
    pub mode: Mode,
    pub cap: Cap,
    pub from: u64,
    pub until: u64,
}

// A record to be written: its kind's number and its fields, of which those count that the kind has. The mode is a number.
// The text is passed beside it.
#[derive(Clone, Copy)]
pub struct Fields {
    pub kind: u8,
    pub account: [u8; 32],
    pub no: u32,
    pub slot: u8,
    pub k: u8,
    pub m: u8,
    pub amount: u64,
    pub hash: [u8; 32],
    pub mode: u8,
    pub cap: Cap,
    pub from: u64,
    pub until: u64,
}
