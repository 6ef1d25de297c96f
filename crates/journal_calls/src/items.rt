// A journal taken apart: what stands at a place, and the bytes of the record there.
ghost use Rattle.std.specs.Prelude.{◌≡◌};
ghost use Rattle.journal.specs.declared.Kind.{Kind};
ghost use Rattle.journal.specs.Places.{blank};
ghost use Rattle.journal_calls.specs.Groups.{group_of, on_slot_there, StandsAt, BodyAt};

use super::{Group, Item, RelayCall, SlotCall, TokenCall, VolumeCall};
use journal::{Kind, Record, Version, next_record};

// The group of a call on a slot, by whether there is such a slot.
fn on_slot(slot: u8, group: Group) -> Group
    ensures { result ≡ on_slot_there slot group }
{
    if 4 <= slot {
        return Group::NoSlot;
    }
    group
}

// The group of a record of the kind.
fn group_of(kind: Kind, slot: u8) -> Group
    ensures { result ≡ group_of kind slot }
{
    match kind {
        Kind::Advance => Group::Advance,
        Kind::Create => Group::Volumes(VolumeCall::Create),
        Kind::Deposit => Group::Volumes(VolumeCall::Deposit),
        Kind::Delete => Group::Delete,
        Kind::Undelete => Group::Volumes(VolumeCall::Undelete),
        Kind::Grant => Group::Tokens(TokenCall::Grant),
        Kind::Attenuate => Group::Tokens(TokenCall::Attenuate),
        Kind::Revoke => Group::Tokens(TokenCall::Revoke),
        Kind::Open => on_slot(slot, Group::Slot(SlotCall::Open)),
        Kind::Stage => on_slot(slot, Group::Slot(SlotCall::Stage)),
        Kind::Commit => on_slot(slot, Group::Commit),
        Kind::Abandon => on_slot(slot, Group::Slot(SlotCall::Abandon)),
        Kind::Remove => Group::Remove,
        Kind::Look => Group::Look,
        Kind::Register => Group::Relays(RelayCall::Register),
        Kind::Heartbeat => Group::Relays(RelayCall::Heartbeat),
    }
}

// The end, or a fault, at a place.
fn no_item(group: Group, p: usize) -> Item
    ensures { result ≡ record { group = group; fields = blank Kind.Advance; after = p } }
{
    Item {
        group,
        fields: Record::blank(Kind::Advance),
        after: p,
    }
}

// What stands at a place of the records of a journal. Past the journal's last byte that is its end.
pub fn item_at(v: Version, journal: &[u8], p: usize) -> Item
    ensures { StandsAt v journal.now p result }
{
    if journal.len() <= p {
        return no_item(Group::End, p);
    }
    match next_record(v, &journal[p..]) {
        Ok(None) => no_item(Group::End, p),
        Err(error) => no_item(Group::Stop(error), p),
        Ok(Some((fields, len))) => Item {
            group: group_of(fields.kind, fields.slot),
            fields,
            after: p + len,
        },
    }
}

// The bytes of a record that begins at a place and ends before `after`: those after its length, as far as the journal has them.
pub fn body_at(journal: &[u8], p: usize, after: usize) -> &[u8]
    ensures { BodyAt journal.now p after result.now }
{
    let n = journal.len();
    if n < after {
        if n < p {
            return &journal[n..n];
        }
        if n - p < 2 {
            return &journal[n..n];
        }
        let from = p + 2;
        return &journal[from..n];
    }
    if after < p {
        return &journal[after..after];
    }
    if after - p < 2 {
        return &journal[after..after];
    }
    let start = p + 2;
    &journal[start..after]
}
