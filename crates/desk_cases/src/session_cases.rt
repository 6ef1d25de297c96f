// Open (09: 1 19 4 5 6 8), stage (0A: 1 19 4 7 12), abandon (0C: 1 19), look (0E: 1 4 5 6 7 15).
//
// Pairs that no desk breaks at once: 1 with 19 in open, abandon and commit, where 1 is a slot that the desk does not have; 19
// with 4 in stage, an idle slot has no token; 4 with 5 and 4 with 7, a token that is not in the table has no scope.
use super::calls::{abandon, advance, commit, grant, look, look_at, open, revoke, stage, stage_at};
use super::made::{in_deleted, in_grace};
use super::print::{Output, before, title};
use super::steps::{grant_whole, volume};
use amount::Cap;
use rules::{Desk, Mode};
use std::io::Write;

// The tokens: 1 for all, 2 for reading from block 5 on, 3 for reading, 4 for writing from block 5 to block 9.
fn four_tokens(out: &mut Output<impl Write>) -> Desk {
    let fresh = rules::fresh(100);
    let mut d = volume(out, fresh, 2, 1, Cap::Unlimited);
    d = grant_whole(out, d, 1, Cap::Unlimited);
    d = grant(out, d, 1, 1, b"", Mode::Read, Cap::Unlimited, 5, 9);
    d = grant(out, d, 1, 1, b"", Mode::Read, Cap::Unlimited, 0, 9);
    grant(out, d, 1, 1, b"", Mode::Write, Cap::Unlimited, 5, 9)
}

fn opens(out: &mut Output<impl Write>) {
    title(out, b"open: 1 19 4 5 6 8");
    let d = four_tokens(out);
    open(out, d, 4, 1);
    open(out, d, 255, 1);
    let e = open(out, d, 3, 1);
    open(out, e, 3, 1);
    before(out, 19, 4);
    open(out, e, 3, 9);
    open(out, e, 0, 9);
    open(out, e, 0, 0);
    open(out, e, 0, 4);
    before(out, 5, 6);
    open(out, e, 0, 2);
    open(out, e, 0, 3);
    let f = in_grace(out, e, 1);
    open(out, f, 0, 1);
    before(out, 6, 8);
    open(out, f, 0, 3);
    let g = in_deleted(out, e);
    open(out, g, 0, 1);
    windows(out, e);
}

fn windows(out: &mut Output<impl Write>, d: Desk) {
    title(out, b"a window has both of its blocks");
    let mut e = advance(out, d, 4);
    open(out, e, 0, 4);
    e = advance(out, e, 5);
    open(out, e, 0, 4);
    e = advance(out, e, 9);
    open(out, e, 0, 4);
    e = advance(out, e, 10);
    open(out, e, 0, 4);
}

// A session in the slot 0 under the prefix "job/", until block 9.
fn job(out: &mut Output<impl Write>) -> Desk {
    let fresh = rules::fresh(100);
    let d = volume(out, fresh, 2, 1, Cap::Unlimited);
    let e = grant(out, d, 1, 1, b"job/", Mode::Both, Cap::Unlimited, 0, 9);
    open(out, e, 0, 1)
}

fn paths(out: &mut Output<impl Write>) {
    title(out, b"stage: 1, by its path");
    let d = job(out);
    stage_at(out, d, 0, b"", 1, 7);
    stage_at(out, d, 0, b"/job/x", 1, 7);
    stage_at(out, d, 0, b"job/", 1, 7);
    stage_at(out, d, 0, b"job//x", 1, 7);
    stage_at(out, d, 0, b"job/./x", 1, 7);
    stage_at(out, d, 0, b"job/../x", 1, 7);
    stage_at(out, d, 0, b"job/a b", 1, 7);
    stage_at(out, d, 0, b"job/...", 1, 7);
    let mut long = [b'p'; 512];
    long[0] = b'j';
    long[1] = b'o';
    long[2] = b'b';
    long[3] = b'/';
    stage_at(out, d, 0, &long, 1, 7);
    let longer = [b'p'; 513];
    stage_at(out, d, 0, &longer, 1, 7);
}

fn stages(out: &mut Output<impl Write>) {
    title(
        out,
        b"stage: 1 19 4 7; it looks at no window, status or quota",
    );
    let d = job(out);
    stage_at(out, d, 4, b"job/x", 1, 7);
    stage_at(out, d, 0, b"job/x", 68719476737, 7);
    stage_at(out, d, 0, b"job/x", 68719476736, 7);
    stage_at(out, d, 1, b"job/x", 1, 7);
    before(out, 1, 19);
    stage_at(out, d, 1, b"job//x", 1, 7);
    stage_at(out, d, 0, b"jobs/x", 1, 7);
    stage_at(out, d, 0, b"job", 1, 7);
    let e = revoke(out, d, 1, 1);
    stage_at(out, e, 0, b"job/x", 1, 7);
    let f = advance(out, d, 10);
    stage_at(out, f, 0, b"job/x", 1, 7);
    let g = in_grace(out, d, 1);
    stage_at(out, g, 0, b"job/x", 1, 7);
}

fn stage_job(out: &mut Output<impl Write>, d: Desk, c: u8, size: u64) -> Desk {
    let path = [b'j', b'o', b'b', b'/', c];
    stage_at(out, d, 0, &path, size, 7)
}

fn eight(out: &mut Output<impl Write>) -> Desk {
    let d = job(out);
    let mut e = stage_job(out, d, b'a', 1);
    e = stage_job(out, e, b'b', 1);
    e = stage_job(out, e, b'c', 1);
    e = stage_job(out, e, b'd', 1);
    e = stage_job(out, e, b'e', 1);
    e = stage_job(out, e, b'f', 1);
    e = stage_job(out, e, b'g', 1);
    stage_job(out, e, b'h', 1)
}

fn ninth(out: &mut Output<impl Write>) {
    title(out, b"stage: 12, the ninth path; a staged path again");
    let d = eight(out);
    stage_job(out, d, b'i', 1);
    before(out, 7, 12);
    stage(out, d, 0, b'i', 1);
    stage_job(out, d, b'h', 68719476736);
    look_at(out, d, 1, b"job/h");
    title(out, b"abandon: 1 19");
    abandon(out, d, 4);
    abandon(out, d, 1);
    let e = abandon(out, d, 0);
    abandon(out, e, 0);
    stage_job(out, e, b'i', 1);
    look_at(out, e, 1, b"job/h");
    let f = open(out, e, 0, 1);
    stage_job(out, f, b'i', 1);
    title(out, b"a commit with no puts");
    let g = commit(out, f, 0);
    commit(out, g, 0);
}

fn looks(out: &mut Output<impl Write>) {
    title(out, b"look: 1 4 5 6 7 15");
    let fresh = rules::fresh(100);
    let mut d = volume(out, fresh, 2, 1, Cap::Unlimited);
    d = grant(out, d, 1, 1, b"job/", Mode::Write, Cap::Unlimited, 5, 9);
    d = grant(out, d, 1, 1, b"job/", Mode::Write, Cap::Unlimited, 0, 9);
    d = grant(out, d, 1, 1, b"job/", Mode::Read, Cap::Unlimited, 5, 9);
    d = grant(out, d, 1, 1, b"job/", Mode::Read, Cap::Unlimited, 0, 9);
    look_at(out, d, 4, b"job/");
    look_at(out, d, 9, b"job/x");
    before(out, 1, 4);
    look_at(out, d, 9, b"job/");
    look_at(out, d, 3, b"job/x");
    before(out, 5, 6);
    look_at(out, d, 1, b"job/x");
    look_at(out, d, 2, b"job/x");
    before(out, 6, 7);
    look(out, d, 2, b'x');
    before(out, 7, 15);
    look_at(out, d, 4, b"jobs/x");
    look_at(out, d, 4, b"job/x");
}

pub(crate) fn run(out: &mut Output<impl Write>) {
    opens(out);
    paths(out);
    stages(out);
    ninth(out);
    looks(out);
}
