// Several calls at once, as the histories need them again and again. All print their lines.
use super::calls::{attenuate, commit, create, deposit, grant, open, register, stage};
use super::print::Output;
use amount::Cap;
use rules::{Desk, Mode};
use std::io::Write;

// The volume "v" of account 1.
pub(crate) fn volume(out: &mut Output<impl Write>, d: Desk, k: u8, m: u8, cap: Cap) -> Desk {
    create(out, d, 1, b"v", k, m, cap)
}

// A volume of account 1 with a name of one byte.
pub(crate) fn named(out: &mut Output<impl Write>, d: Desk, name: u8) -> Desk {
    let bytes = [name];
    create(out, d, 1, &bytes, 2, 1, Cap::Unlimited)
}

// n relays join.
pub(crate) fn relays(out: &mut Output<impl Write>, d: Desk, n: usize, capacity: u64) -> Desk {
    let mut next = d;
    for _ in 0..n {
        next = register(out, next, capacity);
    }
    next
}

// A token of account 1 for a whole volume, for reading and writing, until the last block that the clock reaches.
pub(crate) fn grant_whole(out: &mut Output<impl Write>, d: Desk, volume: u32, cap: Cap) -> Desk {
    grant(out, d, 1, volume, b"", Mode::Both, cap, 0, 1099511627776)
}

// n such tokens for the volume 1.
pub(crate) fn grants(out: &mut Output<impl Write>, d: Desk, n: usize) -> Desk {
    let mut next = d;
    for _ in 0..n {
        next = grant_whole(out, next, 1, Cap::Unlimited);
    }
    next
}

// A child as wide as that token.
pub(crate) fn child(out: &mut Output<impl Write>, d: Desk, token: u32, cap: Cap) -> Desk {
    attenuate(out, d, token, b"", Mode::Both, cap, 0, 1099511627776)
}

// A session in the slot 0 with one staged object.
pub(crate) fn staged(
    out: &mut Output<impl Write>,
    d: Desk,
    token: u32,
    path: u8,
    size: u64,
) -> Desk {
    let e = open(out, d, 0, token);
    stage(out, e, 0, path, size)
}

// The same, committed.
pub(crate) fn put(out: &mut Output<impl Write>, d: Desk, token: u32, path: u8, size: u64) -> Desk {
    let e = staged(out, d, token, path, size);
    commit(out, e, 0)
}

// A desk at clock 0 whose volume 1 has n relays, coins and the token 1.
pub(crate) fn ready(
    out: &mut Output<impl Write>,
    k: u8,
    m: u8,
    n: usize,
    capacity: u64,
    coins: u64,
) -> Desk {
    let fresh = rules::fresh(100);
    let with_volume = volume(out, fresh, k, m, Cap::Unlimited);
    let with_relays = relays(out, with_volume, n, capacity);
    let with_coins = deposit(out, with_relays, 1, coins);
    grant_whole(out, with_coins, 1, Cap::Unlimited)
}

// The same of K 2 and M 1 with three relays of 1 MiB and 1,000 coins, with these caps of the volume and of the token.
pub(crate) fn capped(out: &mut Output<impl Write>, volume_cap: Cap, token_cap: Cap) -> Desk {
    let fresh = rules::fresh(100);
    let with_volume = volume(out, fresh, 2, 1, volume_cap);
    let with_relays = relays(out, with_volume, 3, 1048576);
    let with_coins = deposit(out, with_relays, 1, 1000);
    grant_whole(out, with_coins, 1, token_cap)
}
