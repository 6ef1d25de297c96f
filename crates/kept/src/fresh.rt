// Rows that stand for those of a fresh desk.
ghost use Rattle.std.specs.Prelude.{◌≡◌};
ghost use Rattle.kept.specs.Kept.{fresh_kept_token, fresh_kept_entry, fresh_kept_put, fresh_kept_session};

use super::{KeptEntry, KeptPut, KeptSession, KeptToken};
use amount::Cap;
use rules::{Mode, TokenNo, VolumeNo, fresh_hash, fresh_placement};

pub fn fresh_kept_token() -> KeptToken
    ensures { result ≡ fresh_kept_token }
{
    KeptToken {
        no: TokenNo(0),
        volume: VolumeNo(0),
        parent: TokenNo(0),
        at: 0,
        len: 0,
        mode: Mode::Read,
        cap: Cap::Bytes(0),
        from: 0,
        until: 0,
        used: 0,
    }
}

pub fn fresh_kept_entry() -> KeptEntry
    ensures { result ≡ fresh_kept_entry }
{
    let hash = fresh_hash();
    let placement = fresh_placement();
    KeptEntry {
        volume: VolumeNo(0),
        at: 0,
        len: 0,
        size: 0,
        hash,
        placement,
    }
}

pub fn fresh_kept_put() -> KeptPut
    ensures { result ≡ fresh_kept_put }
{
    let hash = fresh_hash();
    KeptPut {
        at: 0,
        len: 0,
        size: 0,
        hash,
    }
}

pub fn fresh_kept_session() -> KeptSession
    ensures { result ≡ fresh_kept_session }
{
    let put = fresh_kept_put();
    KeptSession {
        token: TokenNo(0),
        volume: VolumeNo(0),
        version: 0,
        count: 0,
        puts: [put; 8],
    }
}
