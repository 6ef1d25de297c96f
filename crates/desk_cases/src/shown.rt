// What the desk holds after a call: a line for each row in use, in the order of the rows.
use super::print::{Output, number, word};
use rules::{Desk, Entry, Placement, Relay, Status, Token, Volume};
use std::io::Write;
use text::Text;

fn status_word(out: &mut Output<impl Write>, s: Status) {
    match s {
        Status::Active => word(out, b" ACTIVE"),
        Status::Grace => word(out, b" GRACE_PERIOD"),
        Status::Deleted => word(out, b" DELETED"),
    }
}

fn volume_line(out: &mut Output<impl Write>, v: Volume) {
    word(out, b"  volume");
    number(out, v.no.0 as u64);
    let s = v.status;
    status_word(out, s);
    word(out, b" grace");
    number(out, v.grace as u64);
    word(out, b" balance");
    number(out, v.balance);
    word(out, b" version");
    number(out, v.version as u64);
    word(out, b"\n");
}

pub(crate) fn show_volumes(out: &mut Output<impl Write>, d: Desk) {
    let t = d.tables;
    let rows = t.volumes;
    for v in &rows {
        if v.no.0 != 0 {
            volume_line(out, *v);
        }
    }
}

// The first byte of a path; the histories that show entries have paths of one byte.
fn path_word(out: &mut Output<impl Write>, path: Text) {
    let bytes = path.bytes;
    let one = [bytes[0]];
    word(out, b"  [");
    word(out, &one);
    word(out, b"]");
}

fn places(out: &mut Output<impl Write>, p: Placement) {
    let relays = p.relays;
    for n in relays.iter().take(p.len) {
        number(out, n.0 as u64);
    }
}

fn entry_line(out: &mut Output<impl Write>, e: Entry) {
    let path = e.path;
    path_word(out, path);
    word(out, b" of volume");
    number(out, e.volume.0 as u64);
    word(out, b" size");
    number(out, e.size);
    word(out, b" on");
    let p = e.placement;
    places(out, p);
    word(out, b"\n");
}

pub(crate) fn show_entries(out: &mut Output<impl Write>, d: Desk) {
    let t = d.tables;
    let rows = t.entries;
    for e in &rows {
        if e.volume.0 != 0 {
            entry_line(out, *e);
        }
    }
}

fn token_line(out: &mut Output<impl Write>, k: Token) {
    word(out, b"  token");
    number(out, k.no.0 as u64);
    word(out, b" used");
    number(out, k.used);
    word(out, b"\n");
}

pub(crate) fn show_tokens(out: &mut Output<impl Write>, d: Desk) {
    let t = d.tables;
    let rows = t.tokens;
    for k in &rows {
        if k.no.0 != 0 {
            token_line(out, *k);
        }
    }
}

fn relay_line(out: &mut Output<impl Write>, r: Relay) {
    word(out, b"  relay");
    number(out, r.no.0 as u64);
    word(out, b" shards");
    number(out, r.held as u64);
    word(out, b" bytes");
    number(out, r.used);
    word(out, b" of");
    number(out, r.capacity);
    word(out, b"\n");
}

pub(crate) fn show_relays(out: &mut Output<impl Write>, d: Desk) {
    let t = d.tables;
    let rows = t.relays;
    for r in &rows {
        if r.no.0 != 0 {
            relay_line(out, *r);
        }
    }
}
