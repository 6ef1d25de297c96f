// The parts of a record's bytes that a record points to.
ghost use Rattle.std.specs.Prelude.{◌≡◌, drop};
ghost use Rattle.journal.specs.Places.{account_at, text_at, hash_at, padded32};

use super::Record;
use rules::{Account, Hash};

// The text of a record: the part of its bytes that holds it, as far as there are bytes.
pub fn text_of(body: &[u8], r: Record) -> &[u8]
    ensures { result.now ≡ text_at r body.now }
{
    let at = r.text.min(body.len());
    let len = r.text_len.min(body.len() - at);
    &body[at..at + len]
}

// The 32 bytes from a place on, with zeros past the end.
fn bytes32(s: &[u8], at: usize) -> [u8; 32]
    ensures { result ≡ padded32 (drop at s.now) }
{
    let mut out = [0u8; 32];
    let part = &s[at.min(s.len())..];
    let n = part.len().min(32);
    out[..n].copy_from_slice(&part[..n]);
    out
}

pub fn account_of(body: &[u8], r: Record) -> Account
    ensures { result.0 ≡ account_at r body.now }
{
    Account(bytes32(body, r.account))
}

pub fn hash_of(body: &[u8], r: Record) -> Hash
    ensures { result.0 ≡ hash_at r body.now }
{
    Hash(bytes32(body, r.hash))
}
