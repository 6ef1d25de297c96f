// Whether two desks are the same, row by row and slot by slot, with the clock, the rate and the counts.
use super::same_rows::{same_entry, same_relay, same_session, same_token, same_volume};
use rules::{Desk, Entry, Relay, Session, Tables, Token, Volume};

fn same_volumes(a: [Volume; 8], b: [Volume; 8]) -> bool {
    for i in 0..8 {
        let x = a[i];
        let y = b[i];
        if !same_volume(x, y) {
            return false;
        }
    }
    true
}

fn same_entries(a: [Entry; 64], b: [Entry; 64]) -> bool {
    for i in 0..64 {
        let x = a[i];
        let y = b[i];
        if !same_entry(x, y) {
            return false;
        }
    }
    true
}

fn same_tokens(a: [Token; 32], b: [Token; 32]) -> bool {
    for i in 0..32 {
        let x = a[i];
        let y = b[i];
        if !same_token(x, y) {
            return false;
        }
    }
    true
}

fn same_relays(a: [Relay; 32], b: [Relay; 32]) -> bool {
    for i in 0..32 {
        let x = a[i];
        let y = b[i];
        if !same_relay(x, y) {
            return false;
        }
    }
    true
}

fn same_sessions(a: [Session; 4], b: [Session; 4]) -> bool {
    for i in 0..4 {
        let x = a[i];
        let y = b[i];
        if !same_session(x, y) {
            return false;
        }
    }
    true
}

// The clock, the rate, the last numbers given and the deposits.
fn same_counts(a: Tables, b: Tables) -> bool {
    if a.clock != b.clock {
        return false;
    }
    if a.rate != b.rate {
        return false;
    }
    if a.last_volume != b.last_volume {
        return false;
    }
    if a.last_token != b.last_token {
        return false;
    }
    if a.last_relay != b.last_relay {
        return false;
    }
    a.deposits == b.deposits
}

fn same_tables(a: Tables, b: Tables) -> bool {
    if !same_counts(a, b) {
        return false;
    }
    let x = a.volumes;
    let y = b.volumes;
    if !same_volumes(x, y) {
        return false;
    }
    let x = a.entries;
    let y = b.entries;
    if !same_entries(x, y) {
        return false;
    }
    let x = a.tokens;
    let y = b.tokens;
    if !same_tokens(x, y) {
        return false;
    }
    let x = a.relays;
    let y = b.relays;
    same_relays(x, y)
}

pub(crate) fn same_desk(a: Desk, b: Desk) -> bool {
    let x = a.tables;
    let y = b.tables;
    if !same_tables(x, y) {
        return false;
    }
    let x = a.sessions;
    let y = b.sessions;
    same_sessions(x, y)
}
