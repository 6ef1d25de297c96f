// A fresh desk: every row free, every slot idle, clock 0. Each row is made by one function, so that a freed row is exactly
// the fresh one.
ghost use Rattle.std.specs.Prelude.{◌≡◌};
ghost use Rattle.rules.specs.Fresh.{fresh_hash, fresh_placement, fresh_entry, fresh_relay, fresh_volume, fresh_token, fresh_put, fresh_session, fresh_tables, fresh_desk};

use super::{
    Account, Desk, Entry, Hash, Mode, Placement, Put, Relay, RelayNo, Scope, Session, Status,
    Tables, Token, TokenNo, Volume, VolumeNo,
};
use amount::Cap;
use text::Text;
use text::name::Name;

pub fn fresh_hash() -> Hash
    ensures { result ≡ fresh_hash }
{
    let bytes = [0u8; 32];
    Hash(bytes)
}

pub fn fresh_placement() -> Placement
    ensures { result ≡ fresh_placement }
{
    let none = RelayNo(0);
    let relays = [none; 24];
    Placement { relays, len: 0 }
}

pub fn fresh_entry() -> Entry
    ensures { result ≡ fresh_entry }
{
    Entry {
        volume: VolumeNo(0),
        path: Text::empty(),
        size: 0,
        hash: fresh_hash(),
        placement: fresh_placement(),
    }
}

pub fn fresh_volume() -> Volume
    ensures { result ≡ fresh_volume }
{
    Volume {
        no: VolumeNo(0),
        owner: Account([0; 32]),
        name: Name::empty(),
        k: 0,
        m: 0,
        cap: Cap::Bytes(0),
        status: Status::Active,
        balance: 0,
        version: 0,
        grace: 0,
        deleted: 0,
    }
}

pub fn fresh_token() -> Token
    ensures { result ≡ fresh_token }
{
    let scope = Scope {
        prefix: Text::empty(),
        mode: Mode::Read,
        cap: Cap::Bytes(0),
        from: 0,
        until: 0,
    };
    Token {
        no: TokenNo(0),
        volume: VolumeNo(0),
        parent: TokenNo(0),
        scope,
        used: 0,
    }
}

pub fn fresh_relay() -> Relay
    ensures { result ≡ fresh_relay }
{
    Relay {
        no: RelayNo(0),
        capacity: 0,
        used: 0,
        held: 0,
        beat: 0,
    }
}

pub fn fresh_put() -> Put
    ensures { result ≡ fresh_put }
{
    Put {
        path: Text::empty(),
        size: 0,
        hash: fresh_hash(),
    }
}

pub fn fresh_session() -> Session
    ensures { result ≡ fresh_session }
{
    let put = fresh_put();
    Session {
        token: TokenNo(0),
        volume: VolumeNo(0),
        version: 0,
        count: 0,
        puts: [put; 8],
    }
}

pub fn fresh_tables(rate: u16) -> Tables
    ensures { result ≡ fresh_tables rate }
{
    let volume = fresh_volume();
    let entry = fresh_entry();
    let token = fresh_token();
    let relay = fresh_relay();
    Tables {
        clock: 0,
        rate,
        volumes: [volume; 8],
        entries: [entry; 64],
        tokens: [token; 32],
        relays: [relay; 32],
        last_volume: 0,
        last_token: 0,
        last_relay: 0,
        deposits: 0,
    }
}

// The desk that every history starts from; `rate` is the price of storage.
pub fn fresh(rate: u16) -> Desk
    ensures { result ≡ fresh_desk rate }
{
    let tables = fresh_tables(rate);
    let session = fresh_session();
    Desk {
        tables,
        sessions: [session; 4],
    }
}
