// Create (02: 1 25 21 12), deposit (03: 2 8 20), delete and undelete (04, 05: 2 3 8).
//
// Pairs that no desk breaks at once: 2 with 8, and 2 with 3; a volume that is not in the table has no status and no owner.
use super::calls::{create, delete, deposit, look, undelete};
use super::made::{with_deposits, with_last_volume};
use super::print::{Output, before, title};
use super::steps::{grant_whole, named, volume};
use amount::Cap;
use rules::Desk;
use std::io::Write;

fn names(out: &mut Output<impl Write>) {
    title(out, b"create: a name of 1 to 64 bytes of a-z A-Z 0-9 _ - .");
    let d = rules::fresh(100);
    create(out, d, 1, b"", 4, 2, Cap::Unlimited);
    create(out, d, 1, b"a/b", 4, 2, Cap::Unlimited);
    create(out, d, 1, b"a b", 4, 2, Cap::Unlimited);
    create(out, d, 1, b".", 4, 2, Cap::Unlimited);
    create(out, d, 1, b"az-AZ_09.", 4, 2, Cap::Unlimited);
    let long = [b'n'; 64];
    create(out, d, 1, &long, 4, 2, Cap::Unlimited);
    let longer = [b'n'; 65];
    create(out, d, 1, &longer, 4, 2, Cap::Unlimited);
}

fn fields(out: &mut Output<impl Write>) {
    title(out, b"create: K 2 to 16, M 1 to 8, a cap up to 2^36");
    let d = rules::fresh(100);
    volume(out, d, 1, 2, Cap::Unlimited);
    volume(out, d, 17, 2, Cap::Unlimited);
    volume(out, d, 4, 0, Cap::Unlimited);
    volume(out, d, 4, 9, Cap::Unlimited);
    volume(out, d, 4, 2, Cap::Bytes(68719476737));
    volume(out, d, 2, 1, Cap::Bytes(0));
    volume(out, d, 16, 8, Cap::Bytes(68719476736));
}

fn taken(out: &mut Output<impl Write>) {
    title(out, b"create: 25, by owner");
    let fresh = rules::fresh(100);
    let d = volume(out, fresh, 4, 2, Cap::Unlimited);
    volume(out, d, 4, 2, Cap::Unlimited);
    let e = create(out, d, 2, b"v", 4, 2, Cap::Unlimited);
    before(out, 1, 25);
    volume(out, e, 17, 2, Cap::Unlimited);
    rows(out, e);
}

fn rows(out: &mut Output<impl Write>, two: Desk) {
    title(out, b"create: 21 12");
    let last = with_last_volume(out, two, 65534);
    let d = named(out, last, b'a');
    named(out, d, b'b');
    before(out, 25, 21);
    volume(out, d, 4, 2, Cap::Unlimited);
    title(out, b"8 rows");
    let mut full = named(out, two, b'a');
    full = named(out, full, b'b');
    full = named(out, full, b'c');
    full = named(out, full, b'd');
    full = named(out, full, b'e');
    full = named(out, full, b'f');
    named(out, full, b'g');
    before(out, 21, 12);
    let spent = with_last_volume(out, full, 65535);
    named(out, spent, b'g');
}

fn deposits(out: &mut Output<impl Write>) {
    title(out, b"deposit: 2 8 20");
    let fresh = rules::fresh(100);
    let d = volume(out, fresh, 4, 2, Cap::Unlimited);
    deposit(out, d, 0, 1);
    deposit(out, d, 2, 1);
    deposit(out, d, 65536, 1);
    deposit(out, d, 1, 0);
    deposit(out, d, 1, 1000000000000001);
    deposit(out, d, 1, 18446744073709551615);
    let e = deposit(out, d, 1, 1000000000000000);
    deposit(out, e, 1, 0);
    deposit(out, e, 1, 1);
    deposit(out, e, 1, 18446744073709551615);
    let f = with_deposits(out, d, 999999999999999995);
    deposit(out, f, 1, 6);
    let g = deposit(out, f, 1, 5);
    deposit(out, g, 1, 0);
    deposit(out, g, 1, 1);
    let h = delete(out, d, 1, 1);
    deposit(out, h, 1, 1);
    before(out, 8, 20);
    deposit(out, h, 1, 1000000000000001);
}

fn deletes(out: &mut Output<impl Write>) {
    title(out, b"delete, undelete: 2 3 8");
    let fresh = rules::fresh(100);
    let d = volume(out, fresh, 4, 2, Cap::Unlimited);
    delete(out, d, 1, 2);
    delete(out, d, 2, 1);
    let e = delete(out, d, 1, 1);
    delete(out, e, 1, 1);
    before(out, 3, 8);
    delete(out, e, 2, 1);
    undelete(out, d, 1, 2);
    undelete(out, e, 2, 1);
    undelete(out, d, 1, 1);
    before(out, 3, 8);
    undelete(out, d, 2, 1);
    let f = undelete(out, e, 1, 1);
    undelete(out, f, 1, 1);
    title(
        out,
        b"the name of a DELETED volume stays taken, its tokens go for good",
    );
    volume(out, e, 4, 2, Cap::Unlimited);
    let g = grant_whole(out, d, 1, Cap::Unlimited);
    let h = delete(out, g, 1, 1);
    let i = undelete(out, h, 1, 1);
    look(out, i, 1, b'a');
    grant_whole(out, i, 1, Cap::Unlimited);
}

pub(crate) fn run(out: &mut Output<impl Write>) {
    names(out);
    fields(out);
    taken(out);
    deposits(out);
    deletes(out);
}
