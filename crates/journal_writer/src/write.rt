// The record writer: the record is measured, then written field by field.
ghost use Rattle.std.specs.Prelude.{◌≡◌, true, ◌+◌, ◌≤◌, length};
ghost use Rattle.journal.specs.Numbers.{bytes_of};
ghost use Rattle.journal.specs.Fields.{cap_bytes};
ghost use Rattle.journal.specs.Records.{text_width, fields_of};
ghost use Rattle.journal.specs.Writes.{over, text_bytes, record_in, record_of, answer_of, buffer_of, field_bytes, fields_bytes, givable, givable_all, field_size, fields_size, IsSmall, IsSized};

use super::bytes::{put_bytes, put_number};
use amount::Cap;
use journal::{Field, Fields, Kind, Version, WriteError};

#[tactic(auto, using(crate::proofs::SizeLaws::lengths))]
fn cap_size(cap: Cap) -> usize
    ensures value { result ≡ length (cap_bytes cap) }
    ensures small { result ≤ 9 }
{
    match cap {
        Cap::Unlimited => 1,
        Cap::Bytes(_) => 9,
    }
}

// How many bytes a field takes, where the reader can give it.
#[tactic(auto, using(crate::proofs::SizeLaws::lengths), unfolding(journal::specs::Writes::field_size, journal::specs::Writes::field_bytes, journal::specs::Fields::encode))]
fn field_size(v: Version, f: Field, d: Fields, text: &[u8]) -> Option<usize>
    ensures value { result ≡ field_size v f d text.now }
    ensures small { IsSmall result }
{
    match f {
        Field::Account | Field::Hash => Some(32),
        Field::No => Some(4),
        Field::Slot | Field::K | Field::M => Some(1),
        Field::Amount | Field::From | Field::Until => Some(8),
        Field::Text => {
            if v.text_most() < text.len() as u64 {
                return None;
            }
            Some(v.text_width() + text.len())
        }
        Field::Mode => {
            if 2 < d.mode {
                return None;
            }
            Some(1)
        }
        Field::Cap => Some(cap_size(d.cap)),
    }
}

// How many bytes the kind's fields take, where the reader can give them.
fn measure(v: Version, kind: Kind, d: Fields, text: &[u8]) -> Option<usize>
    ensures value { result ≡ fields_size v 0 (fields_of v kind) d text.now }
    ensures sized { IsSized result }
{
    let mut n: usize = 0;
    for f in v.fields_of(kind) {
        n += field_size(v, *f, d, text)?;
    }
    Some(n)
}

fn put_value(out: &mut [u8], at: usize, w: usize, n: u64) -> usize
    requires { at + w ≤ length out.old }
    ensures place { result ≡ at + w }
    ensures buffer { out.new ≡ over at (bytes_of w n) out.old }
{
    put_number(out, at, w, n);
    at + w
}

fn put_block(out: &mut [u8], at: usize, b: &[u8; 32]) -> usize
    requires { at + 32 ≤ length out.old }
    ensures place { result ≡ at + 32 }
    ensures buffer { out.new ≡ over at b.now out.old }
{
    put_bytes(out, at, b);
    at + 32
}

#[tactic(auto, using(crate::proofs::OverLaws::pieces))]
fn put_text(v: Version, out: &mut [u8], at: usize, text: &[u8]) -> usize
    requires { at + (text_width v + length text.now) ≤ length out.old }
    ensures place { result ≡ at + (text_width v + length text.now) }
    ensures buffer { out.new ≡ over at (text_bytes v text.now) out.old }
{
    let next = put_value(out, at, v.text_width(), text.len() as u64);
    put_bytes(out, next, text);
    next + text.len()
}

#[tactic(auto, using(crate::proofs::OverLaws::pieces))]
fn put_cap(out: &mut [u8], at: usize, cap: Cap) -> usize
    requires { at + length (cap_bytes cap) ≤ length out.old }
    ensures place { result ≡ at + length (cap_bytes cap) }
    ensures buffer { out.new ≡ over at (cap_bytes cap) out.old }
{
    match cap {
        Cap::Unlimited => put_value(out, at, 1, 0),
        Cap::Bytes(n) => {
            let next = put_value(out, at, 1, 1);
            put_value(out, next, 8, n)
        }
    }
}

// One field at its place; the place after it.
#[tactic(auto, using(crate::proofs::SizeLaws::lengths), unfolding(journal::specs::Writes::field_bytes, journal::specs::Fields::encode))]
fn put_field(v: Version, out: &mut [u8], at: usize, f: Field, d: Fields, text: &[u8]) -> usize
    requires room { at + length (field_bytes v f d text.now) ≤ length out.old }
    requires given { givable v f d text.now ≡ true }
    ensures place { result ≡ at + length (field_bytes v f d text.now) }
    ensures buffer { out.new ≡ over at (field_bytes v f d text.now) out.old }
{
    match f {
        Field::Account => put_block(out, at, &d.account),
        Field::No => put_value(out, at, 4, d.no as u64),
        Field::Slot => put_value(out, at, 1, d.slot as u64),
        Field::K => put_value(out, at, 1, d.k as u64),
        Field::M => put_value(out, at, 1, d.m as u64),
        Field::Text => put_text(v, out, at, text),
        Field::Amount => put_value(out, at, 8, d.amount),
        Field::Hash => put_block(out, at, &d.hash),
        Field::Mode => put_value(out, at, 1, d.mode as u64),
        Field::Cap => put_cap(out, at, d.cap),
        Field::From => put_value(out, at, 8, d.from),
        Field::Until => put_value(out, at, 8, d.until),
    }
}

// The kind's fields, one after another from a place on.
fn put_fields(v: Version, out: &mut [u8], start: usize, kind: Kind, d: Fields, text: &[u8])
    requires room { start + length (fields_bytes v (fields_of v kind) d text.now) ≤ length out.old }
    requires given { givable_all v (fields_of v kind) d text.now ≡ true }
    ensures { out.new ≡ over start (fields_bytes v (fields_of v kind) d text.now) out.old }
{
    let mut at = start;
    for f in v.fields_of(kind) {
        at = put_field(v, out, at, *f, d, text);
    }
}

// The record of a version with its length before it, at the front of the buffer.
fn write_in(v: Version, d: Fields, text: &[u8], out: &mut [u8]) -> Result<usize, WriteError>
    ensures answer { result ≡ answer_of (record_in v d text.now) (length out.old) }
    ensures buffer { out.new ≡ buffer_of (record_in v d text.now) out.old }
{
    let Some(kind) = v.kind_numbered(d.kind) else {
        return Err(WriteError::Unfit);
    };
    let Some(n) = measure(v, kind, d, text) else {
        return Err(WriteError::Unfit);
    };
    let len = n + 3;
    if out.len() < len {
        return Err(WriteError::Room);
    }
    put_number(out, 0, 2, (n + 1) as u64);
    put_number(out, 2, 1, d.kind as u64);
    put_fields(v, out, 3, kind, d, text);
    Ok(len)
}

// A record of the version of that number: how many bytes it takes with its length. The bytes after it stay, and a refusal writes
// nothing.
pub fn write_record(
    version: u8,
    d: Fields,
    text: &[u8],
    out: &mut [u8],
) -> Result<usize, WriteError>
    ensures answer { result ≡ answer_of (record_of version d text.now) (length out.old) }
    ensures buffer { out.new ≡ buffer_of (record_of version d text.now) out.old }
{
    let Ok(v) = Version::try_from(version) else {
        return Err(WriteError::Unfit);
    };
    write_in(v, d, text, out)
}
