// The calls of a journal's records: items.rt tells what stands at a place of a journal, places.rt where a record's text does, and carry.rt carries the
// calls on relays and volumes out. The crate replay_calls has the others.
#![tactic(auto)]

mod carry;
mod items;
mod places;

pub use carry::{relay_call, volume_call};
pub use items::{body_at, item_at};
use journal::{JournalError, Record};
pub use places::text_place;

// The calls by the part of the desk that they change.
#[derive(Clone, Copy)]
pub enum RelayCall {
    Register,
    Heartbeat,
}

#[derive(Clone, Copy)]
pub enum VolumeCall {
    Create,
    Deposit,
    Undelete,
}

#[derive(Clone, Copy)]
pub enum TokenCall {
    Grant,
    Attenuate,
    Revoke,
}

#[derive(Clone, Copy)]
pub enum SlotCall {
    Open,
    Stage,
    Abandon,
}

// What stands at a place of a journal: its end, a fault, or a record, by what carries it out. A call on a slot that is not there
// changes nothing.
#[derive(Clone, Copy)]
pub enum Group {
    End,
    Stop(JournalError),
    Relays(RelayCall),
    Volumes(VolumeCall),
    Tokens(TokenCall),
    Slot(SlotCall),
    NoSlot,
    Look,
    Advance,
    Delete,
    Commit,
    Remove,
}

// With the record, and the place after it.
#[derive(Clone, Copy)]
pub struct Item {
    pub group: Group,
    pub fields: Record,
    pub after: usize,
}

// So many bytes of the journal from a place on.
#[derive(Clone, Copy)]
pub struct TextPlace {
    pub at: usize,
    pub len: usize,
}
