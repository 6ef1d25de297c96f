// The fields of a record, read: each at its place, into the record.
#![tactic(auto, using(crate::proofs::FieldReads::reads), unfolding(crate::specs::Fields::decode, crate::specs::Fields::decode_text, crate::specs::Fields::encode, crate::specs::Fields::part))]

ghost use Rattle.std.specs.Prelude.{◌≡◌, ◌≤◌, ◌<◌, ◌^◌, length, drop};
ghost use Rattle.journal.specs.Fields.{decode, decode_number};
ghost use Rattle.journal.specs.Records.{format_of};
ghost use Rattle.journal.specs.Table.{width_of, place_number, step_number, step_to};

use super::numbers::number_at;
use super::{Field, Record, Version};
use amount::Cap;
use rules::Mode;

// The record with a number in a field.
fn store(r: Record, f: Field, n: u64) -> Record
    requires { n < 256 ^ width_of f }
    ensures { result ≡ place_number f n r }
{
    match f {
        Field::No => Record { no: n as u32, ..r },
        Field::Slot => Record { slot: n as u8, ..r },
        Field::K => Record { k: n as u8, ..r },
        Field::M => Record { m: n as u8, ..r },
        Field::Amount => Record { amount: n, ..r },
        Field::From => Record { from: n, ..r },
        Field::Until => Record { until: n, ..r },
        Field::Account | Field::Text | Field::Hash | Field::Mode | Field::Cap => r,
    }
}

fn read_number(body: &[u8], at: usize, f: Field, r: Record) -> Option<(Record, usize)>
    requires { at ≤ length body.now }
    ensures { result ≡ step_number f at r (decode_number (width_of f) (drop at body.now)) }
{
    let w = f.width();
    let n = number_at(body, at, w)?;
    Some((store(r, f, n), at + w))
}

fn read_account(body: &[u8], at: usize, r: Record) -> Option<(Record, usize)>
    requires { at ≤ length body.now }
    ensures { (v : Version) → result ≡ step_to v Field.Account at r (decode (format_of v Field.Account) (drop at body.now)) }
{
    if body.len() - at < 32 {
        return None;
    }
    Some((Record { account: at, ..r }, at + 32))
}

fn read_hash(body: &[u8], at: usize, r: Record) -> Option<(Record, usize)>
    requires { at ≤ length body.now }
    ensures { (v : Version) → result ≡ step_to v Field.Hash at r (decode (format_of v Field.Hash) (drop at body.now)) }
{
    if body.len() - at < 32 {
        return None;
    }
    Some((Record { hash: at, ..r }, at + 32))
}

fn read_text(v: Version, body: &[u8], at: usize, r: Record) -> Option<(Record, usize)>
    requires { at ≤ length body.now }
    ensures { result ≡ step_to v Field.Text at r (decode (format_of v Field.Text) (drop at body.now)) }
{
    let w = v.text_width();
    let n = number_at(body, at, w)?;
    if v.text_most() < n {
        return None;
    }
    let text = at + w;
    let text_len = n as usize;
    if body.len() - text < text_len {
        return None;
    }
    Some((
        Record {
            text,
            text_len,
            ..r
        },
        text + text_len,
    ))
}

fn read_mode(body: &[u8], at: usize, r: Record) -> Option<(Record, usize)>
    requires { at ≤ length body.now }
    ensures { (v : Version) → result ≡ step_to v Field.Mode at r (decode (format_of v Field.Mode) (drop at body.now)) }
{
    let mode = match number_at(body, at, 1)? {
        0 => Mode::Read,
        1 => Mode::Write,
        2 => Mode::Both,
        _ => return None,
    };
    Some((Record { mode, ..r }, at + 1))
}

fn read_cap(body: &[u8], at: usize, r: Record) -> Option<(Record, usize)>
    requires { at ≤ length body.now }
    ensures { (v : Version) → result ≡ step_to v Field.Cap at r (decode (format_of v Field.Cap) (drop at body.now)) }
{
    let next = at + 1;
    match number_at(body, at, 1)? {
        0 => Some((
            Record {
                cap: Cap::Unlimited,
                ..r
            },
            next,
        )),
        1 => {
            let n = number_at(body, next, 8)?;
            Some((
                Record {
                    cap: Cap::Bytes(n),
                    ..r
                },
                next + 8,
            ))
        }
        _ => None,
    }
}

// One field, at its place in the record's bytes: the record with it and the place after it, where it is there.
#[tactic(auto, using(crate::proofs::StepLaws::number_field))]
pub(crate) fn read_field(
    v: Version,
    body: &[u8],
    at: usize,
    f: Field,
    r: Record,
) -> Option<(Record, usize)>
    requires { at ≤ length body.now }
    ensures { result ≡ step_to v f at r (decode (format_of v f) (drop at body.now)) }
{
    match f {
        Field::Account => read_account(body, at, r),
        Field::Text => read_text(v, body, at, r),
        Field::Hash => read_hash(body, at, r),
        Field::Mode => read_mode(body, at, r),
        Field::Cap => read_cap(body, at, r),
        Field::No
        | Field::Slot
        | Field::K
        | Field::M
        | Field::Amount
        | Field::From
        | Field::Until => read_number(body, at, f, r),
    }
}
