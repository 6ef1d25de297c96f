// Where a commit places its shards (14), which relays it takes, and when their room is given back.
use super::calls::{
    advance, commit, deposit, heartbeat, look, open, register, remove, stage, stage_at,
};
use super::made::in_deleted;
use super::print::{Output, title};
use super::shown::{show_entries, show_relays};
use super::steps::{grant_whole, named, put, ready, relays, staged, volume};
use amount::Cap;
use rules::Desk;
use std::io::Write;

fn capacity(out: &mut Output<impl Write>) {
    title(
        out,
        b"14: a shard has ceil(size / K) bytes; puts are placed one after the other",
    );
    let d = ready(out, 2, 1, 3, 10, 1000);
    put(out, d, 1, b'a', 20);
    put(out, d, 1, b'a', 21);
    let e = staged(out, d, 1, b'a', 10);
    let f = stage(out, e, 0, b'b', 10);
    commit(out, f, 0);
    let g = stage(out, e, 0, b'b', 11);
    commit(out, g, 0);
    title(out, b"14: two relays for three shards");
    let h = ready(out, 2, 1, 2, 10, 1000);
    put(out, h, 1, b'a', 1);
    title(out, b"size 0 takes its relays too");
    put(out, h, 1, b'a', 0);
    let i = ready(out, 2, 1, 3, 0, 0);
    let j = put(out, i, 1, b'a', 0);
    show_relays(out, j);
}

fn chosen(out: &mut Output<impl Write>) {
    title(
        out,
        b"fewest shards first, then the lowest number, for each put as the ones before it left the relays",
    );
    let d = ready(out, 2, 1, 4, 10, 1000);
    let mut e = staged(out, d, 1, b'a', 2);
    e = stage(out, e, 0, b'b', 3);
    e = stage(out, e, 0, b'c', 0);
    e = stage(out, e, 0, b'd', 1);
    e = commit(out, e, 0);
    show_entries(out, e);
    show_relays(out, e);
}

fn by_number(out: &mut Output<impl Write>) {
    title(
        out,
        b"a relay with too little room is passed over; a lower row with a higher number is no sooner taken",
    );
    let mut d = ready(out, 2, 1, 1, 9, 1000);
    d = relays(out, d, 3, 10);
    let e = put(out, d, 1, b'a', 20);
    show_entries(out, e);
    let mut f = advance(out, d, 50);
    f = heartbeat(out, f, 2);
    f = heartbeat(out, f, 3);
    f = heartbeat(out, f, 4);
    f = advance(out, f, 100);
    f = register(out, f, 10);
    f = put(out, f, 1, b'a', 2);
    f = put(out, f, 1, b'b', 2);
    show_entries(out, f);
    show_relays(out, f);
}

fn replaced(out: &mut Output<impl Write>) {
    title(
        out,
        b"a replaced object gives its room back after all puts are placed",
    );
    let d = ready(out, 2, 1, 3, 10, 1000);
    let e = put(out, d, 1, b'a', 10);
    put(out, e, 1, b'a', 12);
    let mut f = open(out, e, 0, 1);
    f = stage_at(out, f, 0, b"a", 9, 9);
    f = commit(out, f, 0);
    look(out, f, 1, b'a');
    show_relays(out, f);
    f = put(out, f, 1, b'a', 10);
    f = staged(out, f, 1, b'a', 2);
    f = stage(out, f, 0, b'b', 10);
    commit(out, f, 0);
    f = stage(out, f, 0, b'b', 8);
    f = commit(out, f, 0);
    show_relays(out, f);
}

fn removed(out: &mut Output<impl Write>) {
    title(out, b"a removed object gives its room back at once");
    let d = ready(out, 2, 1, 3, 10, 1000);
    let e = put(out, d, 1, b'a', 20);
    put(out, e, 1, b'b', 1);
    let f = remove(out, e, 1, 1, b'a');
    show_relays(out, f);
    put(out, f, 1, b'b', 20);
}

// At 7,150: the volumes 1 and 2, three relays of 10 bytes that the volume 1 has filled.
fn two_volumes(out: &mut Output<impl Write>) -> Desk {
    let fresh = rules::fresh(100);
    let mut d = volume(out, fresh, 2, 1, Cap::Unlimited);
    d = named(out, d, b'w');
    d = deposit(out, d, 1, 10);
    d = deposit(out, d, 2, 10);
    d = grant_whole(out, d, 1, Cap::Unlimited);
    d = grant_whole(out, d, 2, Cap::Unlimited);
    d = advance(out, d, 3600);
    d = advance(out, d, 7150);
    d = relays(out, d, 3, 10);
    put(out, d, 1, b'a', 20)
}

fn collected(out: &mut Output<impl Write>) {
    title(out, b"a collected volume gives its room back at once");
    let d = two_volumes(out);
    let e = in_deleted(out, d);
    let f = advance(out, e, 7199);
    put(out, f, 2, b'b', 1);
    let g = advance(out, f, 7200);
    let h = put(out, g, 2, b'b', 20);
    show_entries(out, h);
    show_relays(out, h);
}

fn left(out: &mut Output<impl Write>) {
    title(
        out,
        b"room goes back only to a relay that is still in the table",
    );
    let d = ready(out, 2, 1, 3, 10, 1000);
    let mut e = put(out, d, 1, b'a', 20);
    e = advance(out, e, 50);
    e = heartbeat(out, e, 2);
    e = heartbeat(out, e, 3);
    e = advance(out, e, 100);
    e = register(out, e, 10);
    show_entries(out, e);
    show_relays(out, e);
    put(out, e, 1, b'b', 1);
    e = remove(out, e, 1, 1, b'a');
    show_relays(out, e);
    e = put(out, e, 1, b'b', 20);
    show_entries(out, e);
}

pub(crate) fn run(out: &mut Output<impl Write>) {
    capacity(out);
    chosen(out);
    by_number(out);
    replaced(out);
    removed(out);
    collected(out);
    left(out);
}
