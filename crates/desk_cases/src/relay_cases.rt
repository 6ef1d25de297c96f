// Register (0F: 1 21 12), heartbeat (10: 26), and relays that leave the table.
use super::calls::{advance, commit, heartbeat, register};
use super::made::{with_clock, with_last_relay};
use super::print::{Output, before, title};
use super::shown::show_relays;
use super::steps::{ready, relays, staged};
use rules::Desk;
use std::io::Write;

fn registers(out: &mut Output<impl Write>) {
    title(out, b"register: 1 21 12");
    let d = rules::fresh(100);
    register(out, d, 4398046511105);
    let e = register(out, d, 4398046511104);
    let last = with_last_relay(out, e, 65534);
    let f = register(out, last, 0);
    register(out, f, 0);
    before(out, 1, 21);
    register(out, f, 4398046511105);
    title(out, b"32 rows");
    let full = relays(out, e, 31, 0);
    register(out, full, 0);
    before(out, 21, 12);
    let spent = with_last_relay(out, full, 65535);
    register(out, spent, 0);
    heartbeats(out, full);
}

fn heartbeats(out: &mut Output<impl Write>, full: Desk) {
    title(out, b"heartbeat: 26");
    heartbeat(out, full, 1);
    heartbeat(out, full, 32);
    heartbeat(out, full, 0);
    heartbeat(out, full, 33);
    heartbeat(out, full, 65536);
}

// Relays that join at 950 and say at 1,000 that they are there; at 1,000 there is a session with a put of 2 bytes.
fn at_1000(out: &mut Output<impl Write>) -> Desk {
    let d = ready(out, 2, 1, 0, 0, 10);
    let mut e = advance(out, d, 950);
    e = relays(out, e, 3, 10);
    e = advance(out, e, 1000);
    e = heartbeat(out, e, 1);
    e = heartbeat(out, e, 2);
    e = heartbeat(out, e, 3);
    staged(out, e, 1, b'a', 2)
}

fn health(out: &mut Output<impl Write>) {
    title(
        out,
        b"heartbeat at 1,000: health 50 at 1,050, eligible; 49 at 1,051, not; heartbeat at 1,100: 26",
    );
    let d = at_1000(out);
    let e = advance(out, d, 1050);
    commit(out, e, 0);
    let f = advance(out, e, 1051);
    commit(out, f, 0);
    let g = advance(out, f, 1099);
    heartbeat(out, g, 1);
    let h = advance(out, g, 1100);
    heartbeat(out, h, 1);
    register(out, h, 10);
    title(out, b"a relay at health 0 that is still in the table");
    let i = with_clock(out, d, 1099);
    heartbeat(out, i, 1);
    let j = with_clock(out, d, 1100);
    heartbeat(out, j, 1);
}

fn leaving(out: &mut Output<impl Write>) {
    title(
        out,
        b"advance takes a relay at health 0 out of the table, and its row is free",
    );
    let fresh = rules::fresh(100);
    let mut d = relays(out, fresh, 3, 10);
    d = advance(out, d, 1);
    d = heartbeat(out, d, 2);
    d = advance(out, d, 99);
    heartbeat(out, d, 1);
    let mut e = advance(out, d, 100);
    heartbeat(out, e, 1);
    heartbeat(out, e, 2);
    heartbeat(out, e, 3);
    e = register(out, e, 20);
    e = register(out, e, 20);
    show_relays(out, e);
}

pub(crate) fn run(out: &mut Output<impl Write>) {
    registers(out);
    health(out);
    leaving(out);
}
