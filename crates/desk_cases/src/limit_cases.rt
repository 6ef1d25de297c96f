// What a commit may store: the caps of its token and of each ancestor (10), the volume's cap (11), and its rent (13).
use super::calls::{commit, deposit, look, remove, stage};
use super::made::with_used;
use super::print::{Output, title};
use super::shown::{show_tokens, show_volumes};
use super::steps::{capped, child, grant_whole, put, ready, relays, staged, volume};
use amount::Cap;
use rules::Desk;
use std::io::Write;

fn token_cap(out: &mut Output<impl Write>) {
    title(
        out,
        b"10: a token's cap of 1,000, exactly and one above; a path staged again counts once",
    );
    let d = capped(out, Cap::Unlimited, Cap::Bytes(1000));
    put(out, d, 1, b'a', 1001);
    let e = put(out, d, 1, b'a', 1000);
    put(out, e, 1, b'b', 1);
    put(out, e, 1, b'b', 0);
    let mut f = staged(out, d, 1, b'a', 600);
    f = stage(out, f, 0, b'b', 401);
    commit(out, f, 0);
    f = stage(out, f, 0, b'b', 400);
    f = commit(out, f, 0);
    show_tokens(out, f);
}

fn nothing_back(out: &mut Output<impl Write>) {
    title(
        out,
        b"10: nothing is given back by a replaced or a removed object; cap 0 is no byte",
    );
    let d = capped(out, Cap::Unlimited, Cap::Bytes(1000));
    let mut e = put(out, d, 1, b'a', 600);
    put(out, e, 1, b'a', 401);
    e = put(out, e, 1, b'a', 400);
    look(out, e, 1, b'a');
    put(out, e, 1, b'a', 1);
    e = remove(out, e, 1, 1, b'a');
    put(out, e, 1, b'a', 1);
    child(out, e, 1, Cap::Bytes(1000));
    let zero = capped(out, Cap::Unlimited, Cap::Bytes(0));
    put(out, zero, 1, b'a', 1);
    put(out, zero, 1, b'a', 0);
}

fn children(out: &mut Output<impl Write>) {
    title(
        out,
        b"10: cap 1,000 with children of 600 each: 600 by one, then 401 by the other is 10; 400 passes",
    );
    let mut d = capped(out, Cap::Unlimited, Cap::Bytes(1000));
    d = child(out, d, 1, Cap::Bytes(600));
    d = child(out, d, 1, Cap::Bytes(600));
    put(out, d, 2, b'a', 601);
    let e = put(out, d, 2, b'a', 600);
    put(out, e, 3, b'b', 401);
    let f = put(out, e, 3, b'b', 400);
    show_tokens(out, f);
}

fn ancestors(out: &mut Output<impl Write>) {
    title(out, b"10: the root of a chain of 8");
    let mut d = capped(out, Cap::Unlimited, Cap::Bytes(5));
    d = child(out, d, 1, Cap::Bytes(5));
    d = child(out, d, 2, Cap::Bytes(5));
    d = child(out, d, 3, Cap::Bytes(5));
    d = child(out, d, 4, Cap::Bytes(5));
    d = child(out, d, 5, Cap::Bytes(5));
    d = child(out, d, 6, Cap::Bytes(5));
    d = child(out, d, 7, Cap::Bytes(5));
    d = with_used(out, d, 4);
    put(out, d, 8, b'a', 2);
    let e = put(out, d, 8, b'a', 1);
    show_tokens(out, e);
}

fn most_bytes(out: &mut Output<impl Write>) {
    title(
        out,
        b"10: 2^60 under no cap, of the token and of an ancestor",
    );
    let mut d = capped(out, Cap::Unlimited, Cap::Unlimited);
    d = child(out, d, 1, Cap::Unlimited);
    d = with_used(out, d, 1152921504606846966);
    put(out, d, 1, b'a', 11);
    put(out, d, 1, b'a', 10);
    put(out, d, 2, b'a', 11);
    let e = put(out, d, 2, b'a', 10);
    show_tokens(out, e);
    put(out, e, 1, b'b', 1);
    put(out, e, 1, b'b', 0);
}

fn volume_cap(out: &mut Output<impl Write>) {
    title(
        out,
        b"11: a volume's cap of 1,000, with replaced objects out; cap 0 is no byte",
    );
    let d = capped(out, Cap::Bytes(1000), Cap::Unlimited);
    let mut e = put(out, d, 1, b'a', 600);
    put(out, e, 1, b'b', 401);
    e = put(out, e, 1, b'b', 400);
    put(out, e, 1, b'a', 601);
    e = put(out, e, 1, b'a', 600);
    put(out, e, 1, b'c', 1);
    e = remove(out, e, 1, 1, b'b');
    put(out, e, 1, b'c', 401);
    put(out, e, 1, b'c', 400);
    let zero = capped(out, Cap::Bytes(0), Cap::Unlimited);
    put(out, zero, 1, b'a', 1);
    put(out, zero, 1, b'a', 0);
}

fn mebibyte(out: &mut Output<impl Write>) {
    title(out, b"13: 4+2, 1 MiB: rent 150; a commit charges nothing");
    let d = ready(out, 4, 2, 6, 1048576, 149);
    let mut e = staged(out, d, 1, b'a', 1048576);
    commit(out, e, 0);
    e = deposit(out, e, 1, 1);
    e = commit(out, e, 0);
    show_volumes(out, e);
    title(
        out,
        b"13: the rent of the whole volume, with replaced objects out: one byte more is 151",
    );
    put(out, e, 1, b'b', 1);
    put(out, e, 1, b'a', 1048576);
    let f = deposit(out, e, 1, 1);
    put(out, f, 1, b'b', 1);
}

fn small_rents(out: &mut Output<impl Write>) {
    title(out, b"13: 4+2, raw 1: 1 coin");
    let fresh = rules::fresh(100);
    let mut d = volume(out, fresh, 4, 2, Cap::Unlimited);
    d = relays(out, d, 6, 10000);
    d = grant_whole(out, d, 1, Cap::Unlimited);
    put(out, d, 1, b'a', 0);
    put(out, d, 1, b'a', 1);
    d = deposit(out, d, 1, 1);
    put(out, d, 1, b'a', 1);
    put(out, d, 1, b'a', 10);
    title(
        out,
        b"13: 3+1, raw 7,863: 1 coin; raw 7,864: 2, rounded up twice",
    );
    let e = ready(out, 3, 1, 4, 10000, 1);
    put(out, e, 1, b'a', 7863);
    put(out, e, 1, b'a', 7864);
    let f = deposit(out, e, 1, 1);
    put(out, f, 1, b'a', 7864);
}

// A volume of 4+2 with 1 MiB staged, on a desk of this rate.
fn at_rate(out: &mut Output<impl Write>, rate: u16, coins: u64) -> Desk {
    let fresh = rules::fresh(rate);
    let mut d = volume(out, fresh, 4, 2, Cap::Unlimited);
    d = relays(out, d, 6, 1048576);
    d = deposit(out, d, 1, coins);
    d = grant_whole(out, d, 1, Cap::Unlimited);
    staged(out, d, 1, b'a', 1048576)
}

fn rates(out: &mut Output<impl Write>) {
    title(
        out,
        b"13: rate 0: no rent; rate 65,535: 1 MiB in 4+2 is 98,303",
    );
    let d = at_rate(out, 0, 0);
    commit(out, d, 0);
    let e = at_rate(out, 65535, 98302);
    commit(out, e, 0);
    let f = deposit(out, e, 1, 1);
    commit(out, f, 0);
}

pub(crate) fn run(out: &mut Output<impl Write>) {
    token_cap(out);
    nothing_back(out);
    children(out);
    ancestors(out);
    most_bytes(out);
    volume_cap(out);
    mebibyte(out);
    small_rents(out);
    rates(out);
}
