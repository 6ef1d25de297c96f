// A desk with every row in use: 8 volumes of K 16 and M 8, 64 objects of 16 bytes with their 24 shards on the relays 1 to 24,
// 32 tokens in four chains of 8, 32 relays, and 4 sessions with 8 staged puts.
use amount::Cap;
use rules::{
    Account, Desk, Entry, Mode, Placement, Put, Relay, RelayNo, Scope, Session, Status, Tables,
    Token, TokenNo, Volume, VolumeNo,
};
use text::Text;
use text::name::Name;

// A path of 512 bytes that ends in these two.
pub(crate) fn path(a: u8, b: u8) -> Text {
    let mut bytes = [b'p'; 512];
    bytes[510] = a;
    bytes[511] = b;
    Text { bytes, len: 512 }
}

// A name of one byte.
pub(crate) fn name(a: u8) -> Name {
    let mut bytes = [0u8; 64];
    bytes[0] = a;
    Name { bytes, len: 1 }
}

pub(crate) fn volume(n: u32, name: Name, cap: Cap, status: Status) -> Volume {
    let bytes = [7u8; 32];
    let owner = Account(bytes);
    Volume {
        no: VolumeNo(n),
        owner,
        name,
        k: 16,
        m: 8,
        cap,
        status,
        balance: 0,
        version: 0,
        grace: 0,
        deleted: 0,
    }
}

fn volumes() -> [Volume; 8] {
    let a = name(b'a');
    let first = volume(1, a, Cap::Unlimited, Status::Active);
    let mut rows = [first; 8];
    let mut n: u32 = 1;
    let mut byte: u8 = b'a';
    for i in 0..8 {
        let text = name(byte);
        rows[i] = volume(n, text, Cap::Unlimited, Status::Active);
        n += 1;
        byte += 1;
    }
    rows
}

// The relays 1 to 24.
pub(crate) fn placement() -> Placement {
    let none = RelayNo(0);
    let mut relays = [none; 24];
    let mut n: u32 = 1;
    for i in 0..24 {
        relays[i] = RelayNo(n);
        n += 1;
    }
    Placement { relays, len: 24 }
}

pub(crate) fn entry(n: u32, path: Text) -> Entry {
    let hash = rules::fresh_hash();
    let placement = placement();
    Entry {
        volume: VolumeNo(n),
        path,
        size: 16,
        hash,
        placement,
    }
}

// All in the volume 1, with paths that differ in the last two bytes.
fn entries() -> [Entry; 64] {
    let text = path(b'a', b'a');
    let first = entry(1, text);
    let mut rows = [first; 64];
    let mut byte: u8 = b'0';
    for i in 0..64 {
        let mut e = first;
        let text = path(b'a', byte);
        e.path = text;
        rows[i] = e;
        byte += 1;
    }
    rows
}

pub(crate) fn token(n: u32, parent: u32, cap: Cap) -> Token {
    let prefix = Text::empty();
    let scope = Scope {
        prefix,
        mode: Mode::Both,
        cap,
        from: 0,
        until: 100,
    };
    Token {
        no: TokenNo(n),
        volume: VolumeNo(1),
        parent: TokenNo(parent),
        scope,
        used: 0,
    }
}

// Chains of 8: the tokens 1, 9, 17 and 25 are roots, and each other's parent is the token before it.
fn tokens() -> [Token; 32] {
    let first = token(1, 0, Cap::Unlimited);
    let mut rows = [first; 32];
    let mut n: u32 = 1;
    for i in 0..32 {
        if i % 8 == 0 {
            rows[i] = token(n, 0, Cap::Unlimited);
        } else {
            rows[i] = token(n, n - 1, Cap::Unlimited);
        }
        n += 1;
    }
    rows
}

pub(crate) fn relay(n: u32, shards: u32) -> Relay {
    Relay {
        no: RelayNo(n),
        capacity: 1000,
        used: shards as u64,
        held: shards,
        beat: 0,
    }
}

// The relays 1 to 24 hold a shard of one byte of each entry.
fn relays() -> [Relay; 32] {
    let first = relay(1, 64);
    let mut rows = [first; 32];
    let mut n: u32 = 1;
    for i in 0..32 {
        if i < 24 {
            rows[i] = relay(n, 64);
        } else {
            rows[i] = relay(n, 0);
        }
        n += 1;
    }
    rows
}

pub(crate) fn put(path: Text) -> Put {
    let hash = rules::fresh_hash();
    Put {
        path,
        size: 16,
        hash,
    }
}

pub(crate) fn session() -> Session {
    let text = path(b's', b'a');
    let first = put(text);
    let mut puts = [first; 8];
    let mut byte: u8 = b'a';
    for i in 0..8 {
        let text = path(b's', byte);
        puts[i] = put(text);
        byte += 1;
    }
    Session {
        token: TokenNo(1),
        volume: VolumeNo(1),
        version: 0,
        count: 8,
        puts,
    }
}

pub(crate) fn desk() -> Desk {
    let slot = session();
    let tables = Tables {
        clock: 50,
        rate: 1,
        volumes: volumes(),
        entries: entries(),
        tokens: tokens(),
        relays: relays(),
        last_volume: 8,
        last_token: 32,
        last_relay: 32,
        deposits: 0,
    };
    Desk {
        tables,
        sessions: [slot; 4],
    }
}
