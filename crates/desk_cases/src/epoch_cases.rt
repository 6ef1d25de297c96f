// Epoch ends: rent paid, GRACE_PERIOD and its count, recovery, collection, and DELETED volumes. The volume 1 has 1 MiB in 4+2,
// so that its rent is 150; its relays are gone by the first epoch end, which changes nothing of that.
use super::calls::{advance, commit, create, delete, deposit, look, open, remove, undelete};
use super::print::{Output, title};
use super::shown::{show_entries, show_tokens, show_volumes};
use super::steps::{grant_whole, put, ready, volume};
use amount::Cap;
use rules::Desk;
use std::io::Write;

fn stored(out: &mut Output<impl Write>, coins: u64) -> Desk {
    let d = ready(out, 4, 2, 6, 1048576, coins);
    put(out, d, 1, b'a', 1048576)
}

fn paid(out: &mut Output<impl Write>) {
    title(
        out,
        b"ACTIVE pays 150 where advance reaches or crosses an epoch end",
    );
    let mut d = stored(out, 450);
    d = advance(out, d, 3599);
    show_volumes(out, d);
    d = advance(out, d, 3600);
    show_volumes(out, d);
    d = advance(out, d, 7199);
    d = advance(out, d, 7201);
    show_volumes(out, d);
    d = advance(out, d, 10800);
    show_volumes(out, d);
    short(out, d);
}

fn short(out: &mut Output<impl Write>, paid: Desk) {
    title(
        out,
        b"a commit with no puts is 13 where the balance is below the rent",
    );
    let mut d = open(out, paid, 0, 1);
    commit(out, d, 0);
    title(
        out,
        b"if short, GRACE_PERIOD with count 1, then 2; collected at 3",
    );
    d = advance(out, d, 14400);
    show_volumes(out, d);
    commit(out, d, 0);
    d = advance(out, d, 18000);
    show_volumes(out, d);
    look(out, d, 1, b'a');
    d = advance(out, d, 21600);
    show_volumes(out, d);
    show_entries(out, d);
    show_tokens(out, d);
    look(out, d, 1, b'a');
    deposit(out, d, 1, 1);
    undelete(out, d, 1, 1);
    commit(out, d, 0);
    d = volume(out, d, 4, 2, Cap::Unlimited);
    grant_whole(out, d, 2, Cap::Unlimited);
    show_volumes(out, d);
}

// In GRACE_PERIOD at 7,200, with 149 coins and a session in the slot 0.
fn short_at_7200(out: &mut Output<impl Write>) -> Desk {
    let mut d = stored(out, 299);
    d = advance(out, d, 3600);
    d = open(out, d, 0, 1);
    d = advance(out, d, 7200);
    show_volumes(out, d);
    d
}

fn grace(out: &mut Output<impl Write>) {
    title(out, b"GRACE_PERIOD: what it lets be done");
    let d = short_at_7200(out);
    open(out, d, 1, 1);
    commit(out, d, 0);
    undelete(out, d, 1, 1);
    look(out, d, 1, b'a');
    grant_whole(out, d, 1, Cap::Unlimited);
    let e = deposit(out, d, 1, 1);
    show_volumes(out, e);
    open(out, e, 1, 1);
    recovered(out, e);
    emptied(out, d);
    late(out, d);
}

fn recovered(out: &mut Output<impl Write>, grace: Desk) {
    title(
        out,
        b"GRACE_PERIOD pays and is ACTIVE with count 0; the count begins again at 1",
    );
    let mut d = advance(out, grace, 10800);
    show_volumes(out, d);
    commit(out, d, 0);
    d = deposit(out, d, 1, 151);
    d = commit(out, d, 0);
    d = advance(out, d, 14400);
    show_volumes(out, d);
    d = advance(out, d, 18000);
    show_volumes(out, d);
}

fn emptied(out: &mut Output<impl Write>, grace: Desk) {
    title(out, b"GRACE_PERIOD: a remove, and then no rent");
    let mut d = remove(out, grace, 1, 1, b'a');
    d = advance(out, d, 10800);
    show_volumes(out, d);
    commit(out, d, 0);
}

fn late(out: &mut Output<impl Write>, grace: Desk) {
    title(
        out,
        b"GRACE_PERIOD with count 2 pays too; DELETED keeps the count and adds none; undelete clears it",
    );
    let d = advance(out, grace, 10800);
    show_volumes(out, d);
    let mut e = deposit(out, d, 1, 1);
    e = advance(out, e, 14400);
    show_volumes(out, e);
    let mut f = delete(out, d, 1, 1);
    f = advance(out, f, 14400);
    show_volumes(out, f);
    show_tokens(out, f);
    f = undelete(out, f, 1, 1);
    show_volumes(out, f);
    let g = advance(out, d, 14400);
    deposit(out, g, 1, 1);
}

fn deleted(out: &mut Output<impl Write>) {
    title(
        out,
        b"deleted at 100: undelete at 7,299 passes; advance to 7,300 collects; DELETED pays what it has",
    );
    let mut d = stored(out, 200);
    d = advance(out, d, 100);
    d = delete(out, d, 1, 1);
    d = advance(out, d, 3600);
    show_volumes(out, d);
    d = advance(out, d, 7200);
    show_volumes(out, d);
    d = advance(out, d, 7299);
    let mut e = undelete(out, d, 1, 1);
    show_volumes(out, e);
    e = advance(out, e, 7300);
    look(out, e, 1, b'a');
    e = grant_whole(out, e, 1, Cap::Unlimited);
    look(out, e, 2, b'a');
    create(out, d, 1, b"v", 4, 2, Cap::Unlimited);
    let f = advance(out, d, 7300);
    undelete(out, f, 1, 1);
    show_volumes(out, f);
    show_entries(out, f);
    create(out, f, 1, b"v", 4, 2, Cap::Unlimited);
}

// Two volumes, of which one is deleted at 3,600; the other stays.
fn others(out: &mut Output<impl Write>) {
    title(
        out,
        b"a volume that is collected takes nothing of another with it",
    );
    let mut d = stored(out, 1000);
    d = create(out, d, 2, b"v", 2, 1, Cap::Unlimited);
    d = deposit(out, d, 2, 7);
    d = advance(out, d, 3600);
    d = delete(out, d, 2, 2);
    d = advance(out, d, 7200);
    show_volumes(out, d);
    d = advance(out, d, 10800);
    show_volumes(out, d);
    show_tokens(out, d);
    look(out, d, 1, b'a');
}

pub(crate) fn run(out: &mut Output<impl Write>) {
    paid(out);
    grace(out);
    deleted(out);
    others(out);
}
