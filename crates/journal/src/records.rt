// The record reader.
ghost use Rattle.std.specs.Prelude.{◌≡◌, ◌≤◌, length};
ghost use Rattle.journal.specs.Records.{fields_of};
ghost use Rattle.journal.specs.Places.{blank, read_at};
ghost use Rattle.journal.specs.Table.{read_on};

use super::reader::read_field;
use super::{JournalError, Kind, Record, Version};
use amount::Cap;
use rules::Mode;

impl Record {
    // A record of the kind with no field yet.
    pub fn blank(kind: Kind) -> Record
        ensures { result ≡ blank kind }
    {
        Record {
            kind,
            account: 0,
            no: 0,
            slot: 0,
            k: 0,
            m: 0,
            text: 0,
            text_len: 0,
            amount: 0,
            hash: 0,
            mode: Mode::Read,
            cap: Cap::Unlimited,
            from: 0,
            until: 0,
        }
    }
}

// The kind's fields, one after another from byte 1 on, to the last byte.
fn read_fields(v: Version, body: &[u8], kind: Kind) -> Result<Record, JournalError>
    requires { 1 ≤ length body.now }
    ensures { result ≡ read_on v (fields_of v kind) 1 (blank kind) body.now }
{
    let mut r = Record::blank(kind);
    let mut at = 1;
    for f in v.fields_of(kind) {
        let Some((read, next)) = read_field(v, body, at, *f, r) else {
            return Err(JournalError::Record);
        };
        r = read;
        at = next;
    }
    if at < body.len() {
        return Err(JournalError::Record);
    }
    Ok(r)
}

// A record's bytes, without its length.
#[tactic(auto, using(crate::proofs::ReadLaws::records))]
pub fn read_record(v: Version, body: &[u8]) -> Result<Record, JournalError>
    ensures { result ≡ read_at v body.now }
{
    if body.is_empty() {
        return Err(JournalError::Record);
    }
    let Some(kind) = v.kind_numbered(body[0]) else {
        return Err(JournalError::Record);
    };
    read_fields(v, body, kind)
}
