// The calls on the relays and on the volumes: the call's fields are taken from the record and its bytes, and the call's crate does it.
ghost use Rattle.volumes.specs.Parts.{on_volumes};
ghost use Rattle.journal_calls.specs.Groups.{volume_ask};
ghost use Rattle.journal_calls.specs.Parts.{Asked, RelayDone};

use super::{Item, RelayCall, VolumeCall};
use journal::{account_of, text_of};
use relays::RelayChange;
use rules::{Relay, RelayNo, Tables, VolumeNo};
use volumes::VolumesOutcome;

pub fn relay_call(
    clock: u64,
    rows: [Relay; 32],
    last: u32,
    which: RelayCall,
    item: Item,
) -> RelayChange
    ensures { RelayDone clock rows last which item.fields result }
{
    let r = item.fields;
    match which {
        RelayCall::Register => relays::register_row(clock, rows, last, r.amount),
        RelayCall::Heartbeat => relays::heartbeat_row(clock, rows, last, RelayNo(r.no)),
    }
}

pub fn volume_call(t: Tables, which: VolumeCall, item: Item, body: &[u8]) -> VolumesOutcome
    ensures { Asked (on_volumes t result) (volume_ask which item.fields body.now) t }
{
    let r = item.fields;
    let cap = r.cap;
    match which {
        VolumeCall::Create => {
            let a = account_of(body, r);
            volumes::create_on(t, a, text_of(body, r), r.k, r.m, cap)
        }
        VolumeCall::Deposit => volumes::deposit_on(t, VolumeNo(r.no), r.amount),
        VolumeCall::Undelete => volumes::undelete_on(t, account_of(body, r), VolumeNo(r.no)),
    }
}
