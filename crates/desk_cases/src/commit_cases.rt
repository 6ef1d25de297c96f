// Commit (0B: 1 19 2 4 5 8 9 21 10 11 12 13 14), check by check.
//
// Pairs that no desk breaks at once: 1 with 19, a slot that the desk does not have is neither idle nor busy; 19 with 2, an idle
// slot has no volume; 4 with 5, a token that is not in the table has no window.
use super::calls::{
    advance, commit, delete, deposit, grant, look, look_at, open, quiet_open, quiet_stage, remove,
    remove_at, revoke, stage, stage_at, undelete,
};
use super::made::{in_deleted, in_grace, with_version};
use super::print::{Output, before, title};
use super::steps::{capped, grant_whole, named, put, ready, relays, staged, volume};
use amount::Cap;
use rules::{Desk, Mode};
use std::io::Write;

fn sessions_gone(out: &mut Output<impl Write>) {
    title(out, b"commit: 1 19; then look");
    let d = ready(out, 2, 1, 3, 1000, 1000);
    let e = staged(out, d, 1, b'a', 1000);
    commit(out, e, 4);
    commit(out, e, 255);
    commit(out, e, 1);
    look(out, e, 1, b'a');
    let f = commit(out, e, 0);
    look(out, f, 1, b'a');
    commit(out, f, 0);
    tokens_gone(out, e);
}

fn tokens_gone(out: &mut Output<impl Write>, d: Desk) {
    title(
        out,
        b"commit: 4; a session outlives its token, and a new one does not stand in for it",
    );
    let e = revoke(out, d, 1, 1);
    commit(out, e, 0);
    let f = grant_whole(out, e, 1, Cap::Unlimited);
    commit(out, f, 0);
    let g = delete(out, d, 1, 1);
    commit(out, g, 0);
    let h = undelete(out, g, 1, 1);
    commit(out, h, 0);
    title(out, b"commit: 2, for a volume that was collected");
    let i = advance(out, g, 3600);
    commit(out, i, 0);
    let j = advance(out, i, 7200);
    before(out, 2, 4);
    commit(out, j, 0);
    let k = volume(out, j, 2, 1, Cap::Unlimited);
    commit(out, k, 0);
}

// A session under a token for the blocks 0 to 50.
fn until_50(out: &mut Output<impl Write>) -> Desk {
    let fresh = rules::fresh(100);
    let mut d = volume(out, fresh, 2, 1, Cap::Unlimited);
    d = relays(out, d, 3, 10);
    d = deposit(out, d, 1, 10);
    d = grant(out, d, 1, 1, b"", Mode::Write, Cap::Unlimited, 0, 50);
    staged(out, d, 1, b'a', 2)
}

fn window_and_status(out: &mut Output<impl Write>) {
    title(out, b"commit: 5 8");
    let d = until_50(out);
    let e = advance(out, d, 50);
    commit(out, e, 0);
    let f = advance(out, d, 51);
    commit(out, f, 0);
    before(out, 5, 8);
    let g = in_grace(out, f, 1);
    commit(out, g, 0);
    let h = in_grace(out, e, 2);
    commit(out, h, 0);
    let i = in_deleted(out, e);
    commit(out, i, 0);
    before(out, 8, 9);
    let j = with_version(out, h, 1);
    commit(out, j, 0);
}

fn conflict(out: &mut Output<impl Write>) {
    title(
        out,
        b"commit: 9, after another session's commit and after a remove",
    );
    let d = capped(out, Cap::Unlimited, Cap::Unlimited);
    let mut e = open(out, d, 0, 1);
    e = stage(out, e, 0, b'a', 1);
    e = open(out, e, 1, 1);
    e = stage(out, e, 1, b'b', 1);
    let f = commit(out, e, 1);
    commit(out, f, 0);
    let mut g = open(out, f, 2, 1);
    g = remove(out, g, 1, 1, b'b');
    commit(out, g, 2);
    before(out, 9, 21);
    let h = with_version(out, e, 4294967295);
    commit(out, h, 0);
    spent(out, d);
}

fn spent(out: &mut Output<impl Write>, d: Desk) {
    title(out, b"commit: 21");
    let e = with_version(out, d, 4294967294);
    let f = put(out, e, 1, b'a', 1);
    put(out, f, 1, b'b', 1);
    let g = open(out, f, 0, 1);
    commit(out, g, 0);
}

fn caps(out: &mut Output<impl Write>) {
    title(out, b"commit: 10 11");
    let d = capped(out, Cap::Bytes(5), Cap::Bytes(10));
    put(out, d, 1, b'a', 5);
    put(out, d, 1, b'a', 6);
    before(out, 10, 11);
    put(out, d, 1, b'a', 11);
    before(out, 21, 10);
    let e = with_version(out, d, 4294967295);
    put(out, e, 1, b'a', 11);
}

fn coins_and_relays(out: &mut Output<impl Write>) {
    title(out, b"commit: 13 14");
    let fresh = rules::fresh(100);
    let d = volume(out, fresh, 2, 1, Cap::Unlimited);
    let e = grant_whole(out, d, 1, Cap::Unlimited);
    let f = staged(out, e, 1, b'a', 1);
    before(out, 13, 14);
    commit(out, f, 0);
    let g = deposit(out, f, 1, 1);
    commit(out, g, 0);
    let h = relays(out, g, 3, 1);
    commit(out, h, 0);
}

// 8 objects of size 0, whose paths begin with this byte, in one session of the slot 0, which prints the line of its commit.
fn fill_eight(out: &mut Output<impl Write>, d: Desk, first: u8) -> Desk {
    let mut e = quiet_open(d);
    e = quiet_stage(e, first, b'a');
    e = quiet_stage(e, first, b'b');
    e = quiet_stage(e, first, b'c');
    e = quiet_stage(e, first, b'd');
    e = quiet_stage(e, first, b'e');
    e = quiet_stage(e, first, b'f');
    e = quiet_stage(e, first, b'g');
    e = quiet_stage(e, first, b'h');
    commit(out, e, 0)
}

// A desk with 64 entries of size 0 in a volume of at most 10 bytes that has no coins.
fn full(out: &mut Output<impl Write>) -> Desk {
    let fresh = rules::fresh(100);
    let mut d = volume(out, fresh, 2, 1, Cap::Bytes(10));
    d = relays(out, d, 3, 100);
    d = grant_whole(out, d, 1, Cap::Unlimited);
    d = fill_eight(out, d, b'a');
    d = fill_eight(out, d, b'b');
    d = fill_eight(out, d, b'c');
    d = fill_eight(out, d, b'd');
    d = fill_eight(out, d, b'e');
    d = fill_eight(out, d, b'f');
    d = fill_eight(out, d, b'g');
    fill_eight(out, d, b'h')
}

fn entries(out: &mut Output<impl Write>) {
    title(out, b"commit: 12, the 65th entry of all volumes");
    let d = full(out);
    put(out, d, 1, b'z', 0);
    before(out, 11, 12);
    put(out, d, 1, b'z', 11);
    before(out, 12, 13);
    put(out, d, 1, b'z', 1);
    let mut e = named(out, d, b'w');
    e = grant_whole(out, e, 2, Cap::Unlimited);
    put(out, e, 2, b'z', 0);
    entries_replaced(out, d);
}

fn entries_replaced(out: &mut Output<impl Write>, d: Desk) {
    title(out, b"64 entries: one is replaced, one is removed");
    let e = open(out, d, 0, 1);
    let f = stage_at(out, e, 0, b"hh", 0, 9);
    let g = commit(out, f, 0);
    look_at(out, g, 1, b"hh");
    let h = stage(out, f, 0, b'z', 0);
    commit(out, h, 0);
    let i = remove_at(out, d, 1, 1, b"aa");
    let j = staged(out, i, 1, b'z', 0);
    commit(out, j, 0);
    let k = stage(out, j, 0, b'y', 0);
    commit(out, k, 0);
}

pub(crate) fn run(out: &mut Output<impl Write>) {
    sessions_gone(out);
    window_and_status(out);
    conflict(out);
    caps(out);
    coins_and_relays(out);
    entries(out);
}
