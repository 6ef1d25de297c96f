// Names, prefixes and paths by their length. Names have at most 64 bytes; prefixes with their slash and paths at most 512 (02, W1).
use super::calls::{account, hash_of, open};
use super::print::{Output, answer, number, word};
use super::steps::ready;
use amount::Cap;
use rules::{Answer, Desk, Mode, TokenNo, VolumeNo};
use std::io::Write;

fn line(out: &mut Output<impl Write>, name: &[u8], a: Answer) {
    word(out, name);
    answer(out, a);
}

// A session under the token 1 is in the slot 0.
fn on_path(out: &mut Output<impl Write>, d: Desk, path: &[u8]) {
    let o = desk::stage(d, 0, path, 5, hash_of(7));
    line(out, b"stage", o.answer);
    let o = desk::commit(o.desk, 0);
    line(out, b"commit", o.answer);
    let o = desk::look(o.desk, TokenNo(1), path);
    line(out, b"look", o.answer);
    let o = desk::remove(o.desk, account(1), VolumeNo(1), path);
    line(out, b"remove", o.answer);
}

fn on_prefix(out: &mut Output<impl Write>, d: Desk, prefix: &[u8]) {
    let o = desk::grant(
        d,
        account(1),
        VolumeNo(1),
        prefix,
        Mode::Both,
        Cap::Unlimited,
        0,
        9,
    );
    line(out, b"grant", o.answer);
    let o = desk::attenuate(d, TokenNo(1), prefix, Mode::Both, Cap::Unlimited, 0, 9);
    line(out, b"attenuate", o.answer);
}

fn on_name(out: &mut Output<impl Write>, d: Desk, name: &[u8]) {
    let o = desk::create(d, account(1), name, 2, 1, Cap::Unlimited);
    line(out, b"create", o.answer);
}

// The first n bytes of both.
fn on_texts(out: &mut Output<impl Write>, d: Desk, path: &[u8], prefix: &[u8], n: usize) {
    if path.len() < n {
        return;
    }
    if prefix.len() < n {
        return;
    }
    on_name(out, d, &path[0..n]);
    on_prefix(out, d, &prefix[0..n]);
    on_path(out, d, &path[0..n]);
}

fn lengths(out: &mut Output<impl Write>, d: Desk, n: usize) {
    if n < 1 {
        return;
    }
    if 513 < n {
        return;
    }
    let path = [b'p'; 513];
    let mut prefix = [b'p'; 513];
    let last = n - 1;
    prefix[last] = b'/';
    word(
        out,
        b"-- a name, a prefix with its slash and a path, each of this many bytes:",
    );
    number(out, n as u64);
    word(out, b"\n");
    on_texts(out, d, &path, &prefix, n);
}

pub(crate) fn run(out: &mut Output<impl Write>) {
    let ready = ready(out, 2, 1, 3, 1048576, 1000);
    let d = open(out, ready, 0, 1);
    lengths(out, d, 64);
    lengths(out, d, 65);
    lengths(out, d, 128);
    lengths(out, d, 129);
    lengths(out, d, 511);
    lengths(out, d, 512);
    lengths(out, d, 513);
}
