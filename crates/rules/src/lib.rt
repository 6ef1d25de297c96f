// The types of the desk and a fresh desk, as document 01 describes them.
//
// The rules themselves are the definitions in specs/: what each call answers and what it leaves. The code that carries
// the calls out stands in the crates above and is proved against them.
#![tactic(auto)]

mod answers;
mod fresh_rows;
pub mod numbers;
mod refusals;
mod row;

use amount::Cap;
pub use answers::{numbered_refusal, refusal, success, success_with};
pub use fresh_rows::{
    fresh, fresh_entry, fresh_hash, fresh_placement, fresh_put, fresh_relay, fresh_session,
    fresh_tables, fresh_token, fresh_volume,
};
pub use refusals::Refusal;
pub use row::Row;
use text::Text;
use text::name::Name;

// Volume, token and relay numbers are three types, so that one cannot be passed where another belongs. Each counts from 1;
// 0 marks a free row.
#[derive(Clone, Copy)]
pub struct VolumeNo(pub u32);

#[derive(Clone, Copy)]
pub struct TokenNo(pub u32);

#[derive(Clone, Copy)]
pub struct RelayNo(pub u32);

// Who owns a volume: 32 bytes, established elsewhere.
#[derive(Clone, Copy)]
pub struct Account(pub [u8; 32]);

// The 32 bytes that stand for an object's content.
#[derive(Clone, Copy)]
pub struct Hash(pub [u8; 32]);

// The relay numbers that hold an object's shards, by shard index: the first `len` places.
#[derive(Clone, Copy)]
pub struct Placement {
    pub relays: [RelayNo; 24],
    pub len: usize,
}

#[derive(Clone, Copy)]
pub enum Status {
    Active,
    Grace,
    Deleted,
}

#[derive(Clone, Copy)]
pub struct Volume {
    pub no: VolumeNo,
    pub owner: Account,
    pub name: Name,
    // K data shards and M parity shards
    pub k: u8,
    pub m: u8,
    pub cap: Cap,
    pub status: Status,
    // coins
    pub balance: u64,
    pub version: u32,
    // epochs in a row that were not paid
    pub grace: u8,
    // the block of the delete, where the status is Deleted
    pub deleted: u64,
}

// An object in a volume. `volume` 0 marks a free row.
#[derive(Clone, Copy)]
pub struct Entry {
    pub volume: VolumeNo,
    pub path: Text,
    pub size: u64,
    pub hash: Hash,
    pub placement: Placement,
}

#[derive(Clone, Copy)]
pub enum Mode {
    Read,
    Write,
    Both,
}

// What a token allows. The window is the blocks from `from` to `until`, both included.
#[derive(Clone, Copy)]
pub struct Scope {
    pub prefix: Text,
    pub mode: Mode,
    pub cap: Cap,
    pub from: u64,
    pub until: u64,
}

// `parent` 0 is that of a root.
#[derive(Clone, Copy)]
pub struct Token {
    pub no: TokenNo,
    pub volume: VolumeNo,
    pub parent: TokenNo,
    pub scope: Scope,
    // bytes committed under the token and its descendants
    pub used: u64,
}

#[derive(Clone, Copy)]
pub struct Relay {
    pub no: RelayNo,
    // bytes
    pub capacity: u64,
    pub used: u64,
    // shards
    pub held: u32,
    // the block of the last heartbeat
    pub beat: u64,
}

// A staged object.
#[derive(Clone, Copy)]
pub struct Put {
    pub path: Text,
    pub size: u64,
    pub hash: Hash,
}

// A session slot. `token` 0 marks an idle one. The staged puts are the first `count`.
#[derive(Clone, Copy)]
pub struct Session {
    pub token: TokenNo,
    pub volume: VolumeNo,
    // the volume's version at the opening
    pub version: u32,
    pub count: usize,
    pub puts: [Put; 8],
}

// All of the desk but the session slots: what every call but the four on sessions works on.
#[derive(Clone, Copy)]
pub struct Tables {
    // blocks
    pub clock: u64,
    pub rate: u16,
    pub volumes: [Volume; 8],
    pub entries: [Entry; 64],
    pub tokens: [Token; 32],
    pub relays: [Relay; 32],
    pub last_volume: u32,
    pub last_token: u32,
    pub last_relay: u32,
    // coins, of all deposits ever
    pub deposits: u64,
}

#[derive(Clone, Copy)]
pub struct Desk {
    pub tables: Tables,
    pub sessions: [Session; 4],
}

// What a call answers: 0 and a value, or a refusal's number and value 0. `hash` is what an accepted look hands back, and
// zeros in every other answer.
#[derive(Clone, Copy)]
pub struct Answer {
    pub number: u32,
    pub value: u64,
    pub hash: Hash,
}

// A call's answer with what it leaves: the whole desk, the tables, or the tables and the one slot it works on.
#[derive(Clone, Copy)]
pub struct Outcome {
    pub answer: Answer,
    pub desk: Desk,
}

#[derive(Clone, Copy)]
pub struct TablesOutcome {
    pub answer: Answer,
    pub tables: Tables,
}

#[derive(Clone, Copy)]
pub struct SlotOutcome {
    pub answer: Answer,
    pub tables: Tables,
    pub session: Session,
}
