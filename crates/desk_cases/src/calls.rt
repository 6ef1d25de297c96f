// The sixteen calls. Each prints its name, its fields as they were given, the answer and the value, and hands the desk on.
// An account or a hash is 32 times the byte that is printed of it.
use super::print::{Output, answer, cap_word, number, scope, text, word};
use amount::Cap;
use rules::{Account, Desk, Hash, Mode, Outcome, RelayNo, TokenNo, VolumeNo};
use std::io::Write;

pub(crate) fn account(b: u8) -> Account {
    let bytes = [b; 32];
    Account(bytes)
}

pub(crate) fn hash_of(b: u8) -> Hash {
    let bytes = [b; 32];
    Hash(bytes)
}

fn told(out: &mut Output<impl Write>, o: Outcome) -> Desk {
    let a = o.answer;
    answer(out, a);
    o.desk
}

pub(crate) fn advance(out: &mut Output<impl Write>, d: Desk, block: u64) -> Desk {
    word(out, b"advance");
    number(out, block);
    told(out, desk::advance(d, block))
}

pub(crate) fn create(
    out: &mut Output<impl Write>,
    d: Desk,
    who: u8,
    name: &[u8],
    k: u8,
    m: u8,
    cap: Cap,
) -> Desk {
    word(out, b"create");
    number(out, who as u64);
    text(out, name);
    number(out, k as u64);
    number(out, m as u64);
    cap_word(out, cap);
    told(out, desk::create(d, account(who), name, k, m, cap))
}

pub(crate) fn deposit(out: &mut Output<impl Write>, d: Desk, volume: u32, coins: u64) -> Desk {
    word(out, b"deposit");
    number(out, volume as u64);
    number(out, coins);
    told(out, desk::deposit(d, VolumeNo(volume), coins))
}

pub(crate) fn delete(out: &mut Output<impl Write>, d: Desk, who: u8, volume: u32) -> Desk {
    word(out, b"delete");
    number(out, who as u64);
    number(out, volume as u64);
    told(out, desk::delete(d, account(who), VolumeNo(volume)))
}

pub(crate) fn undelete(out: &mut Output<impl Write>, d: Desk, who: u8, volume: u32) -> Desk {
    word(out, b"undelete");
    number(out, who as u64);
    number(out, volume as u64);
    told(out, desk::undelete(d, account(who), VolumeNo(volume)))
}

pub(crate) fn grant(
    out: &mut Output<impl Write>,
    d: Desk,
    who: u8,
    volume: u32,
    prefix: &[u8],
    mode: Mode,
    cap: Cap,
    from: u64,
    until: u64,
) -> Desk {
    word(out, b"grant");
    number(out, who as u64);
    number(out, volume as u64);
    scope(out, prefix, mode, cap, from, until);
    told(
        out,
        desk::grant(
            d,
            account(who),
            VolumeNo(volume),
            prefix,
            mode,
            cap,
            from,
            until,
        ),
    )
}

pub(crate) fn attenuate(
    out: &mut Output<impl Write>,
    d: Desk,
    token: u32,
    prefix: &[u8],
    mode: Mode,
    cap: Cap,
    from: u64,
    until: u64,
) -> Desk {
    word(out, b"attenuate");
    number(out, token as u64);
    scope(out, prefix, mode, cap, from, until);
    told(
        out,
        desk::attenuate(d, TokenNo(token), prefix, mode, cap, from, until),
    )
}

pub(crate) fn revoke(out: &mut Output<impl Write>, d: Desk, who: u8, token: u32) -> Desk {
    word(out, b"revoke");
    number(out, who as u64);
    number(out, token as u64);
    told(out, desk::revoke(d, account(who), TokenNo(token)))
}

pub(crate) fn open(out: &mut Output<impl Write>, d: Desk, slot: u8, token: u32) -> Desk {
    word(out, b"open");
    number(out, slot as u64);
    number(out, token as u64);
    told(out, desk::open(d, slot, TokenNo(token)))
}

pub(crate) fn stage_at(
    out: &mut Output<impl Write>,
    d: Desk,
    slot: u8,
    path: &[u8],
    size: u64,
    hash: u8,
) -> Desk {
    word(out, b"stage");
    number(out, slot as u64);
    text(out, path);
    number(out, size);
    number(out, hash as u64);
    told(out, desk::stage(d, slot, path, size, hash_of(hash)))
}

// A path of one byte; the object's hash is 7.
pub(crate) fn stage(out: &mut Output<impl Write>, d: Desk, slot: u8, path: u8, size: u64) -> Desk {
    let bytes = [path];
    stage_at(out, d, slot, &bytes, size, 7)
}

pub(crate) fn commit(out: &mut Output<impl Write>, d: Desk, slot: u8) -> Desk {
    word(out, b"commit");
    number(out, slot as u64);
    told(out, desk::commit(d, slot))
}

pub(crate) fn abandon(out: &mut Output<impl Write>, d: Desk, slot: u8) -> Desk {
    word(out, b"abandon");
    number(out, slot as u64);
    told(out, desk::abandon(d, slot))
}

pub(crate) fn remove_at(
    out: &mut Output<impl Write>,
    d: Desk,
    who: u8,
    volume: u32,
    path: &[u8],
) -> Desk {
    word(out, b"remove");
    number(out, who as u64);
    number(out, volume as u64);
    text(out, path);
    told(out, desk::remove(d, account(who), VolumeNo(volume), path))
}

pub(crate) fn remove(
    out: &mut Output<impl Write>,
    d: Desk,
    who: u8,
    volume: u32,
    path: u8,
) -> Desk {
    let bytes = [path];
    remove_at(out, d, who, volume, &bytes)
}

pub(crate) fn look_at(out: &mut Output<impl Write>, d: Desk, token: u32, path: &[u8]) -> Desk {
    word(out, b"look");
    number(out, token as u64);
    text(out, path);
    told(out, desk::look(d, TokenNo(token), path))
}

pub(crate) fn look(out: &mut Output<impl Write>, d: Desk, token: u32, path: u8) -> Desk {
    let bytes = [path];
    look_at(out, d, token, &bytes)
}

pub(crate) fn register(out: &mut Output<impl Write>, d: Desk, capacity: u64) -> Desk {
    word(out, b"register");
    number(out, capacity);
    told(out, desk::register(d, capacity))
}

pub(crate) fn heartbeat(out: &mut Output<impl Write>, d: Desk, relay: u32) -> Desk {
    word(out, b"heartbeat");
    number(out, relay as u64);
    told(out, desk::heartbeat(d, RelayNo(relay)))
}

// The first two calls of a session in the slot 0 under the token 1, with nothing printed: for desks that take many of them.
pub(crate) fn quiet_open(d: Desk) -> Desk {
    let o = desk::open(d, 0, TokenNo(1));
    o.desk
}

// A put of size 0 with a path of two bytes.
pub(crate) fn quiet_stage(d: Desk, a: u8, b: u8) -> Desk {
    let path = [a, b];
    let o = desk::stage(d, 0, &path, 0, hash_of(7));
    o.desk
}
