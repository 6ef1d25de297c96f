// Remove (0D: 1 2 3 8 15 21), and what a commit stores: sizes and hashes by look, and the rows that it takes.
//
// A pair that no desk breaks at once: 2 with 3, a volume that is not in the table has no owner.
use super::calls::{commit, delete, look, open, remove, remove_at, stage, stage_at};
use super::made::with_version;
use super::print::{Output, before, title};
use super::shown::show_entries;
use super::steps::{put, ready, staged};
use std::io::Write;

fn removes(out: &mut Output<impl Write>) {
    title(out, b"remove: 1 2 3 8 15 21");
    let d = ready(out, 2, 1, 3, 100, 1000);
    let e = put(out, d, 1, b'a', 20);
    remove_at(out, e, 1, 1, b"a/");
    remove(out, e, 1, 9, b'a');
    before(out, 1, 2);
    remove_at(out, e, 1, 9, b"a/");
    remove(out, e, 2, 1, b'a');
    remove(out, e, 1, 1, b'b');
    let f = delete(out, e, 1, 1);
    remove(out, f, 1, 1, b'a');
    before(out, 3, 8);
    remove(out, f, 2, 1, b'a');
    before(out, 8, 15);
    remove(out, f, 1, 1, b'b');
    let g = with_version(out, e, 4294967295);
    remove(out, g, 1, 1, b'a');
    before(out, 15, 21);
    remove(out, g, 1, 1, b'b');
    let h = with_version(out, e, 4294967294);
    remove(out, h, 1, 1, b'a');
    let i = remove(out, e, 1, 1, b'a');
    look(out, i, 1, b'a');
    remove(out, i, 1, 1, b'a');
}

fn stored(out: &mut Output<impl Write>) {
    title(
        out,
        b"commit, then look; a path staged again has its last size and hash in its old place",
    );
    let d = ready(out, 2, 1, 3, 100, 1000);
    let mut e = staged(out, d, 1, b'a', 20);
    e = stage(out, e, 0, b'b', 5);
    e = stage_at(out, e, 0, b"a", 6, 9);
    look(out, e, 1, b'a');
    e = commit(out, e, 0);
    look(out, e, 1, b'a');
    look(out, e, 1, b'b');
    look(out, e, 1, b'c');
    show_entries(out, e);
    title(
        out,
        b"an entry is replaced in its row; a freed row is taken again",
    );
    e = open(out, e, 3, 1);
    e = stage(out, e, 3, b'c', 1);
    e = stage(out, e, 3, b'a', 2);
    e = commit(out, e, 3);
    look(out, e, 1, b'a');
    e = remove(out, e, 1, 1, b'b');
    e = put(out, e, 1, b'd', 4);
    show_entries(out, e);
}

pub(crate) fn run(out: &mut Output<impl Write>) {
    removes(out);
    stored(out);
}
