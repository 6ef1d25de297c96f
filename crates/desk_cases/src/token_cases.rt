// Grant (06: 1 2 3 8 21 12), attenuate (07: 1 4 17 18 21 12), revoke (08: 4 3).
//
// Pairs that no desk breaks at once: 2 with 3, a volume that is not in the table has no owner; 4 with 17 and 4 with 3, a token
// that is not in the table has no scope and no volume.
use super::calls::{attenuate, delete, grant, look, revoke};
use super::made::with_last_token;
use super::print::{Output, before, title};
use super::steps::{child, grant_whole, grants, volume};
use amount::Cap;
use rules::{Desk, Mode};
use std::io::Write;

fn one_volume(out: &mut Output<impl Write>) -> Desk {
    let fresh = rules::fresh(100);
    volume(out, fresh, 2, 1, Cap::Unlimited)
}

fn scopes(out: &mut Output<impl Write>) {
    title(out, b"grant: 1, by its prefix, cap and window");
    let d = one_volume(out);
    grant(out, d, 1, 1, b"job", Mode::Both, Cap::Unlimited, 0, 9);
    grant(out, d, 1, 1, b"/", Mode::Both, Cap::Unlimited, 0, 9);
    grant(out, d, 1, 1, b"job//", Mode::Both, Cap::Unlimited, 0, 9);
    grant(out, d, 1, 1, b"../", Mode::Both, Cap::Unlimited, 0, 9);
    let mut long = [b'p'; 512];
    long[511] = b'/';
    grant(out, d, 1, 1, &long, Mode::Both, Cap::Unlimited, 0, 9);
    let mut longer = [b'p'; 513];
    longer[512] = b'/';
    grant(out, d, 1, 1, &longer, Mode::Both, Cap::Unlimited, 0, 9);
    grant_whole(out, d, 1, Cap::Bytes(68719476737));
    grant_whole(out, d, 1, Cap::Bytes(68719476736));
    grant_whole(out, d, 1, Cap::Bytes(0));
    grant(out, d, 1, 1, b"", Mode::Both, Cap::Unlimited, 2, 1);
    grant(out, d, 1, 1, b"", Mode::Read, Cap::Unlimited, 2, 2);
    grant(
        out,
        d,
        1,
        1,
        b"a/",
        Mode::Write,
        Cap::Unlimited,
        0,
        18446744073709551615,
    );
}

fn owners(out: &mut Output<impl Write>) {
    title(out, b"grant: 2 3 8");
    let d = one_volume(out);
    grant_whole(out, d, 0, Cap::Unlimited);
    grant_whole(out, d, 2, Cap::Unlimited);
    before(out, 1, 2);
    grant(out, d, 1, 2, b"job", Mode::Both, Cap::Unlimited, 0, 9);
    grant(out, d, 2, 1, b"", Mode::Both, Cap::Unlimited, 0, 9);
    let e = delete(out, d, 1, 1);
    grant_whole(out, e, 1, Cap::Unlimited);
    before(out, 3, 8);
    grant(out, e, 2, 1, b"", Mode::Both, Cap::Unlimited, 0, 9);
    before(out, 8, 21);
    let f = with_last_token(out, e, 65535);
    grant_whole(out, f, 1, Cap::Unlimited);
}

fn rows(out: &mut Output<impl Write>) {
    title(out, b"grant, attenuate: 21 12");
    let d = one_volume(out);
    let last = with_last_token(out, d, 65534);
    let e = grant_whole(out, last, 1, Cap::Unlimited);
    grant_whole(out, e, 1, Cap::Unlimited);
    child(out, e, 65535, Cap::Unlimited);
    title(out, b"32 rows");
    let full = grants(out, d, 32);
    grant_whole(out, full, 1, Cap::Unlimited);
    child(out, full, 1, Cap::Unlimited);
    let spent = with_last_token(out, full, 65535);
    before(out, 21, 12);
    grant_whole(out, spent, 1, Cap::Unlimited);
    before(out, 21, 12);
    child(out, spent, 1, Cap::Unlimited);
}

fn narrower(out: &mut Output<impl Write>) {
    title(out, b"attenuate: 1 4 17, by prefix, cap and window");
    let d = one_volume(out);
    let e = grant(out, d, 1, 1, b"job/", Mode::Both, Cap::Bytes(1000), 10, 20);
    attenuate(out, e, 1, b"job/", Mode::Both, Cap::Bytes(1000), 10, 20);
    attenuate(out, e, 1, b"job/x/", Mode::Read, Cap::Bytes(0), 12, 12);
    attenuate(out, e, 1, b"", Mode::Both, Cap::Bytes(1000), 10, 20);
    attenuate(out, e, 1, b"jobs/", Mode::Both, Cap::Bytes(1000), 10, 20);
    attenuate(out, e, 1, b"job/", Mode::Both, Cap::Bytes(1001), 10, 20);
    attenuate(out, e, 1, b"job/", Mode::Both, Cap::Unlimited, 10, 20);
    attenuate(out, e, 1, b"job/", Mode::Both, Cap::Bytes(1000), 9, 20);
    attenuate(out, e, 1, b"job/", Mode::Both, Cap::Bytes(1000), 10, 21);
    attenuate(out, e, 1, b"job", Mode::Both, Cap::Bytes(1000), 10, 20);
    attenuate(out, e, 2, b"job/", Mode::Both, Cap::Bytes(1000), 10, 20);
    before(out, 1, 4);
    attenuate(out, e, 2, b"job", Mode::Both, Cap::Bytes(1000), 10, 20);
}

fn with_mode(out: &mut Output<impl Write>, d: Desk, mode: Mode) -> Desk {
    attenuate(out, d, 1, b"", mode, Cap::Bytes(5), 0, 9)
}

fn modes(out: &mut Output<impl Write>) {
    title(out, b"attenuate: 17, by mode");
    let d = one_volume(out);
    let read = grant(out, d, 1, 1, b"", Mode::Read, Cap::Unlimited, 0, 9);
    with_mode(out, read, Mode::Read);
    with_mode(out, read, Mode::Write);
    with_mode(out, read, Mode::Both);
    let write = grant(out, d, 1, 1, b"", Mode::Write, Cap::Unlimited, 0, 9);
    with_mode(out, write, Mode::Read);
    with_mode(out, write, Mode::Write);
    with_mode(out, write, Mode::Both);
}

fn chain(out: &mut Output<impl Write>) -> Desk {
    let d = one_volume(out);
    let mut e = grant_whole(out, d, 1, Cap::Unlimited);
    e = child(out, e, 1, Cap::Unlimited);
    e = child(out, e, 2, Cap::Unlimited);
    e = child(out, e, 3, Cap::Unlimited);
    e = child(out, e, 4, Cap::Unlimited);
    e = child(out, e, 5, Cap::Unlimited);
    e = child(out, e, 6, Cap::Unlimited);
    child(out, e, 7, Cap::Unlimited)
}

fn deep(out: &mut Output<impl Write>) {
    title(out, b"attenuate: 18");
    let d = chain(out);
    child(out, d, 8, Cap::Unlimited);
    before(out, 17, 18);
    attenuate(out, d, 8, b"", Mode::Both, Cap::Unlimited, 0, 1099511627777);
    let spent = with_last_token(out, d, 65535);
    child(out, spent, 7, Cap::Unlimited);
    before(out, 18, 21);
    child(out, spent, 8, Cap::Unlimited);
    title(
        out,
        b"revoke: 4 3; a token goes with all below it, and no number is given twice",
    );
    revoke(out, d, 1, 9);
    revoke(out, d, 2, 3);
    let e = revoke(out, d, 1, 3);
    look(out, e, 2, b'a');
    look(out, e, 3, b'a');
    look(out, e, 8, b'a');
    child(out, e, 2, Cap::Unlimited);
    revoke(out, e, 1, 3);
}

pub(crate) fn run(out: &mut Output<impl Write>) {
    scopes(out);
    owners(out);
    rows(out);
    narrower(out);
    modes(out);
    deep(out);
}
