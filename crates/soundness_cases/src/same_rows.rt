// Whether two rows or two slots are the same in every field, in use or free: the bytes after a text's length and the places
// after a placement's length too.
use amount::Cap;
use lists::same_bytes;
use rules::{
    Account, Entry, Hash, Mode, Placement, Put, Relay, RelayNo, Scope, Session, Status, Token,
    Volume,
};
use text::Text;
use text::name::Name;

fn same_text(a: Text, b: Text) -> bool {
    if a.len != b.len {
        return false;
    }
    let x = a.bytes;
    let y = b.bytes;
    same_bytes(&x, &y)
}

fn same_name(a: Name, b: Name) -> bool {
    if a.len != b.len {
        return false;
    }
    let x = a.bytes;
    let y = b.bytes;
    same_bytes(&x, &y)
}

fn same_account(a: Account, b: Account) -> bool {
    let x = a.0;
    let y = b.0;
    same_bytes(&x, &y)
}

fn same_hash(a: Hash, b: Hash) -> bool {
    let x = a.0;
    let y = b.0;
    same_bytes(&x, &y)
}

fn same_cap(a: Cap, b: Cap) -> bool {
    match a {
        Cap::Unlimited => match b {
            Cap::Unlimited => true,
            Cap::Bytes(_) => false,
        },
        Cap::Bytes(x) => match b {
            Cap::Unlimited => false,
            Cap::Bytes(y) => x == y,
        },
    }
}

// A number for each status and each mode.
fn status_number(s: Status) -> u8 {
    match s {
        Status::Active => 0,
        Status::Grace => 1,
        Status::Deleted => 2,
    }
}

fn mode_number(m: Mode) -> u8 {
    match m {
        Mode::Read => 0,
        Mode::Write => 1,
        Mode::Both => 2,
    }
}

pub(crate) fn same_volume(a: Volume, b: Volume) -> bool {
    let x = a.owner;
    let y = b.owner;
    if !same_account(x, y) {
        return false;
    }
    let x = a.name;
    let y = b.name;
    if !same_name(x, y) {
        return false;
    }
    let x = a.cap;
    let y = b.cap;
    if !same_cap(x, y) {
        return false;
    }
    let x = a.status;
    let y = b.status;
    if status_number(x) != status_number(y) {
        return false;
    }
    if a.no.0 != b.no.0 {
        return false;
    }
    if a.k != b.k {
        return false;
    }
    if a.m != b.m {
        return false;
    }
    if a.balance != b.balance {
        return false;
    }
    if a.version != b.version {
        return false;
    }
    if a.grace != b.grace {
        return false;
    }
    a.deleted == b.deleted
}

fn same_places(a: [RelayNo; 24], b: [RelayNo; 24]) -> bool {
    for i in 0..24 {
        let x = a[i];
        let y = b[i];
        if x.0 != y.0 {
            return false;
        }
    }
    true
}

fn same_placement(a: Placement, b: Placement) -> bool {
    if a.len != b.len {
        return false;
    }
    let x = a.relays;
    let y = b.relays;
    same_places(x, y)
}

pub(crate) fn same_entry(a: Entry, b: Entry) -> bool {
    if a.volume.0 != b.volume.0 {
        return false;
    }
    if a.size != b.size {
        return false;
    }
    let x = a.path;
    let y = b.path;
    if !same_text(x, y) {
        return false;
    }
    let x = a.hash;
    let y = b.hash;
    if !same_hash(x, y) {
        return false;
    }
    let x = a.placement;
    let y = b.placement;
    same_placement(x, y)
}

fn same_scope(a: Scope, b: Scope) -> bool {
    if a.from != b.from {
        return false;
    }
    if a.until != b.until {
        return false;
    }
    let x = a.prefix;
    let y = b.prefix;
    if !same_text(x, y) {
        return false;
    }
    let x = a.mode;
    let y = b.mode;
    if mode_number(x) != mode_number(y) {
        return false;
    }
    let x = a.cap;
    let y = b.cap;
    same_cap(x, y)
}

pub(crate) fn same_token(a: Token, b: Token) -> bool {
    if a.no.0 != b.no.0 {
        return false;
    }
    if a.volume.0 != b.volume.0 {
        return false;
    }
    if a.parent.0 != b.parent.0 {
        return false;
    }
    if a.used != b.used {
        return false;
    }
    let x = a.scope;
    let y = b.scope;
    same_scope(x, y)
}

pub(crate) fn same_relay(a: Relay, b: Relay) -> bool {
    if a.no.0 != b.no.0 {
        return false;
    }
    if a.capacity != b.capacity {
        return false;
    }
    if a.used != b.used {
        return false;
    }
    if a.held != b.held {
        return false;
    }
    a.beat == b.beat
}

fn same_put(a: Put, b: Put) -> bool {
    if a.size != b.size {
        return false;
    }
    let x = a.path;
    let y = b.path;
    if !same_text(x, y) {
        return false;
    }
    let x = a.hash;
    let y = b.hash;
    same_hash(x, y)
}

fn same_puts(a: [Put; 8], b: [Put; 8]) -> bool {
    for i in 0..8 {
        let x = a[i];
        let y = b[i];
        if !same_put(x, y) {
            return false;
        }
    }
    true
}

pub(crate) fn same_session(a: Session, b: Session) -> bool {
    if a.token.0 != b.token.0 {
        return false;
    }
    if a.volume.0 != b.volume.0 {
        return false;
    }
    if a.version != b.version {
        return false;
    }
    if a.count != b.count {
        return false;
    }
    let x = a.puts;
    let y = b.puts;
    same_puts(x, y)
}
