// Desks that no short history reaches: one part of a desk is set by hand, within what 01 lets a desk hold. Each prints what
// it sets.
use super::print::{Output, number, word};
use rules::{Desk, Status, Tables, Volume};
use std::io::Write;

fn with_tables(d: Desk, t: Tables) -> Desk {
    let mut next = d;
    next.tables = t;
    next
}

fn made(out: &mut Output<impl Write>, part: &[u8], n: u64) {
    word(out, b"-- made: ");
    word(out, part);
    number(out, n);
    word(out, b"\n");
}

pub(crate) fn with_clock(out: &mut Output<impl Write>, d: Desk, block: u64) -> Desk {
    made(out, b"clock", block);
    let mut t = d.tables;
    t.clock = block;
    with_tables(d, t)
}

pub(crate) fn with_deposits(out: &mut Output<impl Write>, d: Desk, coins: u64) -> Desk {
    made(out, b"deposits ever", coins);
    let mut t = d.tables;
    t.deposits = coins;
    with_tables(d, t)
}

pub(crate) fn with_last_volume(out: &mut Output<impl Write>, d: Desk, n: u32) -> Desk {
    made(out, b"last volume number", n as u64);
    let mut t = d.tables;
    t.last_volume = n;
    with_tables(d, t)
}

pub(crate) fn with_last_token(out: &mut Output<impl Write>, d: Desk, n: u32) -> Desk {
    made(out, b"last token number", n as u64);
    let mut t = d.tables;
    t.last_token = n;
    with_tables(d, t)
}

pub(crate) fn with_last_relay(out: &mut Output<impl Write>, d: Desk, n: u32) -> Desk {
    made(out, b"last relay number", n as u64);
    let mut t = d.tables;
    t.last_relay = n;
    with_tables(d, t)
}

// Of the first token.
pub(crate) fn with_used(out: &mut Output<impl Write>, d: Desk, bytes: u64) -> Desk {
    made(out, b"used bytes of the first token", bytes);
    let mut t = d.tables;
    let mut row = t.tokens[0];
    row.used = bytes;
    t.tokens[0] = row;
    with_tables(d, t)
}

// Of the first volume.
pub(crate) fn with_version(out: &mut Output<impl Write>, d: Desk, version: u32) -> Desk {
    made(out, b"version of the first volume", version as u64);
    let mut t = d.tables;
    let mut row = t.volumes[0];
    row.version = version;
    t.volumes[0] = row;
    with_tables(d, t)
}

fn with_status(d: Desk, status: Status, grace: u8) -> Desk {
    let mut t = d.tables;
    let old = t.volumes[0];
    let no = old.no;
    let owner = old.owner;
    let name = old.name;
    let cap = old.cap;
    t.volumes[0] = Volume {
        no,
        owner,
        name,
        k: old.k,
        m: old.m,
        cap,
        status,
        balance: old.balance,
        version: old.version,
        grace,
        deleted: old.deleted,
    };
    with_tables(d, t)
}

// The first volume in GRACE_PERIOD.
pub(crate) fn in_grace(out: &mut Output<impl Write>, d: Desk, count: u8) -> Desk {
    made(out, b"first volume in GRACE_PERIOD, count", count as u64);
    with_status(d, Status::Grace, count)
}

// The first volume DELETED, at the block of its row, with its tokens.
pub(crate) fn in_deleted(out: &mut Output<impl Write>, d: Desk) -> Desk {
    made(out, b"first volume DELETED with its tokens, at block", 0);
    with_status(d, Status::Deleted, 0)
}
