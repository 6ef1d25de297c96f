// One part of the test broken at a time, under the words of document 01 or of the definition.
use super::calls::show;
use super::full;
use amount::Cap;
use rules::{
    Account, Desk, Entry, Relay, RelayNo, Session, Status, Tables, Token, TokenNo, Volume, VolumeNo,
};
use std::io;
use std::io::Write;
use text::Text;
use text::name::Name;

// The desk with one part replaced: the tables, the last row of a table, or the last slot.
fn with_tables(d: Desk, t: Tables) -> Desk {
    let mut next = d;
    next.tables = t;
    next
}

fn with_volume(d: Desk, v: Volume) -> Desk {
    let mut t = d.tables;
    t.volumes[7] = v;
    with_tables(d, t)
}

fn with_entry(d: Desk, e: Entry) -> Desk {
    let mut t = d.tables;
    t.entries[63] = e;
    with_tables(d, t)
}

fn with_token(d: Desk, k: Token) -> Desk {
    let mut t = d.tables;
    t.tokens[31] = k;
    with_tables(d, t)
}

fn with_relay(d: Desk, r: Relay) -> Desk {
    let mut t = d.tables;
    t.relays[31] = r;
    with_tables(d, t)
}

fn with_session(d: Desk, s: Session) -> Desk {
    let mut next = d;
    next.sessions[3] = s;
    next
}

pub(crate) fn counts(out: &mut impl Write, d: Desk) -> io::Result<()> {
    let mut t = d.tables;
    t.clock = 1099511627777;
    show(out, b"a clock above 2^40", with_tables(d, t))?;
    let mut t = d.tables;
    t.deposits = 1000000000000000001;
    show(out, b"deposits above 10^18", with_tables(d, t))?;
    let mut t = d.tables;
    t.last_volume = 65536;
    show(out, b"a volume number above 65,535", with_tables(d, t))?;
    let mut t = d.tables;
    t.last_token = 65536;
    show(out, b"a token number above 65,535", with_tables(d, t))?;
    let mut t = d.tables;
    t.last_relay = 65536;
    show(out, b"a relay number above 65,535", with_tables(d, t))
}

pub(crate) fn volumes(out: &mut impl Write, d: Desk) -> io::Result<()> {
    let h = full::name(b'h');
    let v = full::volume(9, h, Cap::Unlimited, Status::Active);
    show(out, b"a volume number not yet given", with_volume(d, v))?;
    let long = Name {
        bytes: [b'h'; 64],
        len: 65,
    };
    let v = full::volume(8, long, Cap::Unlimited, Status::Active);
    show(out, b"a volume name of 65 bytes", with_volume(d, v))?;
    let mut v = full::volume(8, h, Cap::Unlimited, Status::Active);
    v.k = 17;
    show(out, b"K 17", with_volume(d, v))?;
    let mut v = full::volume(8, h, Cap::Unlimited, Status::Active);
    v.m = 0;
    show(out, b"M 0", with_volume(d, v))?;
    let v = full::volume(8, h, Cap::Bytes(68719476737), Status::Active);
    show(out, b"a volume cap above 2^36", with_volume(d, v))?;
    let mut v = full::volume(8, h, Cap::Unlimited, Status::Active);
    v.balance = 1000000000000001;
    show(out, b"a balance above 10^15", with_volume(d, v))
}

pub(crate) fn statuses(out: &mut impl Write, d: Desk) -> io::Result<()> {
    let h = full::name(b'h');
    let mut v = full::volume(8, h, Cap::Unlimited, Status::Active);
    v.grace = 1;
    show(out, b"ACTIVE with grace count 1", with_volume(d, v))?;
    let v = full::volume(8, h, Cap::Unlimited, Status::Grace);
    show(out, b"GRACE_PERIOD with grace count 0", with_volume(d, v))?;
    let mut v = full::volume(8, h, Cap::Unlimited, Status::Grace);
    v.grace = 3;
    show(out, b"GRACE_PERIOD with grace count 3", with_volume(d, v))?;
    let mut v = full::volume(8, h, Cap::Unlimited, Status::Deleted);
    v.grace = 3;
    show(out, b"DELETED with grace count 3", with_volume(d, v))?;
    let mut v = full::volume(8, h, Cap::Unlimited, Status::Deleted);
    v.deleted = 51;
    show(out, b"a delete after the clock", with_volume(d, v))?;
    let mut v = full::volume(8, h, Cap::Unlimited, Status::Active);
    v.deleted = 51;
    show(
        out,
        b"ACTIVE with a delete block after the clock",
        with_volume(d, v),
    )
}

pub(crate) fn names(out: &mut impl Write, d: Desk) -> io::Result<()> {
    let h = full::name(b'h');
    let a = full::name(b'a');
    let v = full::volume(7, h, Cap::Unlimited, Status::Active);
    show(out, b"a volume number held twice", with_volume(d, v))?;
    let v = full::volume(8, a, Cap::Unlimited, Status::Active);
    show(out, b"an owner's volume name held twice", with_volume(d, v))?;
    let bytes = [9u8; 32];
    let other = Account(bytes);
    let mut v = full::volume(8, a, Cap::Unlimited, Status::Active);
    v.owner = other;
    show(out, b"the same name of another owner", with_volume(d, v))
}

pub(crate) fn entries(out: &mut impl Write, d: Desk) -> io::Result<()> {
    let slash = full::path(b'z', b'/');
    let e = full::entry(1, slash);
    show(out, b"a path that ends with a slash", with_entry(d, e))?;
    let mut longer = full::path(b'z', b'z');
    longer.len = 513;
    let e = full::entry(1, longer);
    show(out, b"a path of 513 bytes", with_entry(d, e))?;
    let path = full::path(b'z', b'z');
    let mut e = full::entry(1, path);
    e.size = 68719476737;
    show(out, b"a size above 2^36", with_entry(d, e))?;
    let e = full::entry(9, path);
    show(out, b"an entry's volume not in the table", with_entry(d, e))?;
    let first = full::path(b'a', b'0');
    let e = full::entry(1, first);
    show(out, b"a volume's path held twice", with_entry(d, e))?;
    let e = full::entry(2, first);
    show(out, b"the same path in another volume", with_entry(d, e))
}

pub(crate) fn placements(out: &mut impl Write, d: Desk) -> io::Result<()> {
    let path = full::path(b'z', b'z');
    let mut p = full::placement();
    p.len = 23;
    let mut e = full::entry(1, path);
    e.placement = p;
    show(out, b"a placement of 23 relays", with_entry(d, e))?;
    let mut p = full::placement();
    p.relays[0] = RelayNo(33);
    let mut e = full::entry(1, path);
    e.placement = p;
    show(
        out,
        b"a placement with a relay number not yet given",
        with_entry(d, e),
    )?;
    let mut p = full::placement();
    p.relays[0] = RelayNo(2);
    let mut e = full::entry(1, path);
    e.placement = p;
    show(out, b"a placement with one relay twice", with_entry(d, e))
}

pub(crate) fn tokens(out: &mut impl Write, d: Desk) -> io::Result<()> {
    let k = full::token(33, 31, Cap::Unlimited);
    show(out, b"a token number not yet given", with_token(d, k))?;
    let word = Text::truncated(b"w");
    let mut k = full::token(32, 31, Cap::Unlimited);
    let mut scope = k.scope;
    scope.prefix = word;
    k.scope = scope;
    show(out, b"a prefix with no slash", with_token(d, k))?;
    let k = full::token(32, 31, Cap::Bytes(68719476737));
    show(out, b"a token cap above 2^36", with_token(d, k))?;
    let mut k = full::token(32, 31, Cap::Unlimited);
    k.scope.from = 101;
    show(out, b"from after until", with_token(d, k))?;
    let mut k = full::token(32, 31, Cap::Unlimited);
    let no = VolumeNo(9);
    k.volume = no;
    show(out, b"a token's volume not in the table", with_token(d, k))?;
    let k = full::token(32, 33, Cap::Unlimited);
    show(out, b"a parent not in the table", with_token(d, k))?;
    let mut k = full::token(32, 31, Cap::Unlimited);
    k.used = 1152921504606846977;
    show(out, b"used bytes of a token above 2^60", with_token(d, k))?;
    let k = full::token(30, 0, Cap::Unlimited);
    show(out, b"a token number held twice", with_token(d, k))
}

pub(crate) fn chains(out: &mut impl Write, d: Desk) -> io::Result<()> {
    let mut t = d.tables;
    t.tokens[24] = full::token(25, 32, Cap::Unlimited);
    show(out, b"a parent chain in a ring", with_tables(d, t))?;
    let mut t = d.tables;
    t.tokens[24] = full::token(25, 25, Cap::Unlimited);
    show(out, b"a token that is its own parent", with_tables(d, t))?;
    let mut t = d.tables;
    t.tokens[24] = full::token(25, 1, Cap::Unlimited);
    show(out, b"a parent chain of 9 tokens", with_tables(d, t))?;
    let mut t = d.tables;
    t.tokens[24] = full::token(25, 0, Cap::Unlimited);
    show(out, b"the chain of 8 tokens", with_tables(d, t))
}

pub(crate) fn relays(out: &mut impl Write, d: Desk) -> io::Result<()> {
    let r = full::relay(33, 0);
    show(out, b"a relay number not yet given", with_relay(d, r))?;
    let mut r = full::relay(32, 0);
    r.capacity = 4398046511105;
    show(out, b"a capacity above 2^42", with_relay(d, r))?;
    let mut t = d.tables;
    let mut first = full::relay(1, 64);
    first.capacity = 63;
    t.relays[0] = first;
    show(out, b"used bytes above the capacity", with_tables(d, t))?;
    let mut r = full::relay(32, 0);
    r.beat = 51;
    show(out, b"a heartbeat after the clock", with_relay(d, r))?;
    let mut r = full::relay(32, 0);
    r.used = 1;
    show(
        out,
        b"used bytes other than the placements give",
        with_relay(d, r),
    )?;
    let mut r = full::relay(32, 0);
    r.held = 1;
    show(
        out,
        b"held shards other than the placements give",
        with_relay(d, r),
    )?;
    let r = full::relay(31, 0);
    show(out, b"a relay number held twice", with_relay(d, r))
}

pub(crate) fn sessions(out: &mut impl Write, d: Desk) -> io::Result<()> {
    let mut s = full::session();
    let no = TokenNo(33);
    s.token = no;
    show(
        out,
        b"a session's token number not yet given",
        with_session(d, s),
    )?;
    let mut s = full::session();
    let no = VolumeNo(9);
    s.volume = no;
    show(
        out,
        b"a session's volume number not yet given",
        with_session(d, s),
    )?;
    let mut s = full::session();
    s.count = 9;
    show(out, b"9 staged puts", with_session(d, s))?;
    let slash = full::path(b'z', b'/');
    let mut s = full::session();
    s.puts[0] = full::put(slash);
    show(
        out,
        b"a staged path that ends with a slash",
        with_session(d, s),
    )?;
    let path = full::path(b'z', b'z');
    let mut large = full::put(path);
    large.size = 68719476737;
    let mut s = full::session();
    s.puts[0] = large;
    show(out, b"a staged size above 2^36", with_session(d, s))?;
    let again = full::path(b's', b'h');
    let mut s = full::session();
    s.puts[0] = full::put(again);
    show(out, b"a session's path held twice", with_session(d, s))
}

// Free rows and an idle slot, whatever else they hold.
pub(crate) fn free_rows(out: &mut impl Write, rate: u16) -> io::Result<()> {
    let fresh = rules::fresh(rate);
    show(out, b"the fresh desk", fresh)?;
    let junk = Text {
        bytes: [0u8; 512],
        len: 999,
    };
    let junk_name = Name {
        bytes: [0u8; 64],
        len: 999,
    };
    let mut v = full::volume(0, junk_name, Cap::Bytes(68719476737), Status::Active);
    v.grace = 9;
    let with_v = with_volume(fresh, v);
    let mut e = full::entry(0, junk);
    e.size = 68719476737;
    let with_e = with_entry(with_v, e);
    let mut k = full::token(0, 7, Cap::Unlimited);
    k.used = 1152921504606846977;
    let with_k = with_token(with_e, k);
    let mut r = full::relay(0, 7);
    r.beat = 51;
    let with_r = with_relay(with_k, r);
    let mut s = full::session();
    let no = TokenNo(0);
    s.token = no;
    s.count = 9;
    show(
        out,
        b"free rows and an idle slot that hold anything",
        with_session(with_r, s),
    )
}
